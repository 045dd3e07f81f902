// Going on to the next instruction.
ghost use Rattle.std.specs.Prelude.{◌≡◌, List};
ghost use Rattle.lanes.specs.declared.said.Block.{Block};
ghost use Rattle.wave.specs.Wave.{wave_of, preds_of, hot_of};
ghost use Rattle.wave.specs.Going.{onward_by};

use crate::state::{Hot, depth_of};

// After an instruction of `size` words that is no control instruction. The open blocks are as they were.
pub fn onward_by(size: u32, h: Hot) -> Hot
    ensures { (xs : List Block) → result ≡ hot_of (onward_by size (wave_of h xs)) (preds_of h) }
{
    let mut n = h;
    n.place = std::num::wrapping_add_u32(h.place, size);
    n.depth = depth_of(h.depth);
    n
}
