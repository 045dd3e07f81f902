// The wave operations: what the executing lanes of a wave make together of a number of each. A lane's number counts only where it executes,
// and every lane's result is there before any is written.
#![tactic(auto)]

mod joining;
mod sources;
mod votes;

ghost use Rattle.std.specs.Prelude.{◌≡◌, min, get_or};
ghost use Rattle.lanes.specs.Sets.{widest};
ghost use Rattle.lanes.specs.EachLane.{by_lane};
ghost use Rattle.across.specs.Across.{across_of, shuffle_of};

use crate::sources::Sources;
use arith::signed::{LEAST, max, min};
use arith::sums::add;
use instructions::instr::WaveOp;
use lanes::{ByLane, EACH_LANE, Lanes, Width};

// The register of the largest signed number, which lowers nothing.
const GREATEST: u32 = LEAST - 1;

// What lane 0 gets, and where the lanes have no results of their own every lane.
fn for_all(op: WaveOp, sources: &Sources) -> u32
    ensures { result ≡ across_of op sources.now.width.lanes sources.now.t (λ j. get_or sources.now.numbers.now j 0) 0 }
{
    match op {
        WaveOp::Broadcast => sources.from_lane(0),
        WaveOp::ReduceAdd => sources.fold(0, add),
        WaveOp::ReduceMin => sources.fold(GREATEST, min),
        WaveOp::ReduceMax => sources.fold(LEAST, max),
        WaveOp::PrefixSum => 0,
        WaveOp::Ballot => sources.nonzero_lanes(),
        WaveOp::Any => sources.any_nonzero(),
        WaveOp::All => sources.all_nonzero(),
    }
}

// What `op` gives each lane of a wave of this width, of the numbers of the lanes `t`.
pub fn wave_results(op: WaveOp, numbers: &ByLane, t: Lanes, width: u32) -> ByLane
    ensures { result ≡ by_lane (min width widest) (across_of op (min width widest) t (λ j. get_or numbers.now j 0)) }
{
    let sources = Sources {
        numbers,
        t,
        width: Width::of(width),
    };
    match op {
        WaveOp::PrefixSum => sources.prefix_sums(),
        _ => lanes::each(for_all(op, &sources), width),
    }
}

// What SHUFFLE gives each lane of a wave of this width: the number of the lane that it names, of the numbers of the lanes `t`.
pub fn shuffle_results(numbers: &ByLane, named: &ByLane, t: Lanes, width: u32) -> ByLane
    ensures { result ≡ by_lane (min width widest) (shuffle_of (min width widest) t (λ j. get_or numbers.now j 0) (λ j. get_or named.now j 0)) }
{
    let sources = Sources {
        numbers,
        t,
        width: Width::of(width),
    };
    let mut out = [0u32; EACH_LANE];
    for lane in 0..sources.width.lanes as usize {
        out[lane] = sources.from_lane(named[lane]);
    }
    out
}
