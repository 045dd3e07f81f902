// Meeting at a barrier.
ghost use Rattle.std.specs.Prelude.{◌≡◌};
ghost use Rattle.wave.specs.Wave.{wave_of};
ghost use Rattle.control.specs.Rules.{barrier_lanes, barrier_rule};
ghost use Rattle.control.specs.Control.{given, giving};

use crate::rules::Stepped;
use crate::rules::going::after_place;
use lanes::said::{Block, DEEPEST};
use lanes::{Lanes, without};
use wave::state::{Hot, depth_of};

// BARRIER: fault 5 where some lane is active and some launched, unhalted lane is not; `all` are the launched lanes.
pub(crate) fn barrier_rule(h: Hot, all: Lanes, blocks: &mut [Block; DEEPEST]) -> Stepped
    ensures { given result blocks.new ≡ giving (barrier_lanes all (wave_of h blocks.old)) (barrier_rule all) h blocks.old }
{
    let here = h.active | h.halted;
    let rest = without(all, here);
    let stop = (h.active != 0) & (rest != 0);
    let mut n = h;
    n.depth = depth_of(h.depth);
    if stop {
        return Stepped {
            barrier: h.active,
            hot: n,
        };
    }
    n.place = after_place(h.place);
    Stepped { barrier: 0, hot: n }
}
