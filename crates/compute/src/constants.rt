// Results of MOV_SPECIAL, which no register decides.
ghost use Rattle.std.specs.Prelude.{◌≡◌};
ghost use Rattle.lanes.specs.EachLane.{by_lane};
ghost use Rattle.compute.specs.Values.{special_of};

use crate::per_lane::each_lane;
use lanes::{ByLane, Width};

// What MOV_SPECIAL gives every lane.
pub(crate) fn special_results(special: u8, width: Width) -> ByLane
    ensures { result ≡ by_lane width.lanes (special_of special) }
{
    each_lane(width, |i| match special {
        0 => i,
        1 => 0,
        _ => 1,
    })
}
