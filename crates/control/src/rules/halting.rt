// Halting.
ghost use Rattle.wave.specs.Wave.{Does};
ghost use Rattle.control.specs.Rules.{halt_rule};

use crate::rules::aside::without_lanes;
use lanes::Lanes;
use lanes::said::{Block, DEEPEST};
use wave::state::{Hot, depth_of};

// HALT: the lanes t halt for good, and leave every open block.
pub(crate) fn halt_rule(h: Hot, t: Lanes, blocks: &mut [Block; DEEPEST]) -> Hot
    ensures { Does (halt_rule t) h blocks.old result blocks.new }
{
    let d = depth_of(h.depth) as usize;
    for block in &mut blocks[..d] {
        block.left |= t;
    }
    let mut n = without_lanes(h, t);
    n.halted = h.halted | t;
    n
}
