// The state that a launch starts from.
ghost use Rattle.std.specs.Prelude.{◌≡◌, min};
ghost use Rattle.lanes.specs.Sets.{widest};
ghost use Rattle.wave.specs.Wave.{state_of, launch, clear};

use crate::state::{Hot, NO_BLOCK, State};
use lanes::first;
use lanes::said::DEEPEST;

// Place 0, the lanes 0 to `n` - 1 active (every lane where `n` is larger than the widest wave), no lane halted, no predicate, no block.
pub fn launched(n: u32) -> State
    ensures { result ≡ state_of (launch (min n widest)) clear }
{
    let hot = Hot {
        place: 0,
        active: first(n),
        halted: 0,
        p1: 0,
        p2: 0,
        p3: 0,
        depth: 0,
    };
    State {
        hot,
        blocks: [NO_BLOCK; DEEPEST],
    }
}

// Place 0, empty sets, no block: the state of a refused launch.
pub fn not_launched() -> State
    ensures { result ≡ state_of (launch 0) clear }
{
    launched(0)
}
