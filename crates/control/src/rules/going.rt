// Going on to the next place.
ghost use Rattle.std.specs.Prelude.{◌≡◌};
ghost use Rattle.wave.specs.Wave.{Does};
ghost use Rattle.wave.specs.Going.{next};
ghost use Rattle.control.specs.Rules.{onward};

use lanes::said::{Block, DEEPEST};
use wave::going::onward_by;
use wave::state::Hot;

// The place after this one; 0 after the largest.
pub(crate) fn after_place(place: u32) -> u32
    ensures { result ≡ next place }
{
    std::num::wrapping_add_u32(place, 1)
}

// NOP.
pub(crate) fn onward(h: Hot, blocks: &mut [Block; DEEPEST]) -> Hot
    ensures { Does onward h blocks.old result blocks.new }
{
    onward_by(1, h)
}
