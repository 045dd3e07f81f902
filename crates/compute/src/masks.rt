// One lane of a set, for lanes that are known to be below the widest wave's: a test and a mark that cost one shift.
// They ask for that as an index asks for its bound: what they are called with is the counter of a loop over a width.
ghost use Rattle.std.specs.Prelude.{◌≡◌, ◌&&◌, cond, ◌<◌};
ghost use Rattle.lanes.specs.Sets.{widest, has, only};

use lanes::Lanes;

// Whether `lane` is in `set`.
pub(crate) fn picks(set: Lanes, lane: u32) -> bool
    requires { lane < widest }
    ensures { result ≡ has set lane }
{
    set & (1u32 << lane) != 0
}

// `lane` alone, where it is in `set` and `test` holds, and else no lane.
pub(crate) fn marked(set: Lanes, lane: u32, test: bool) -> Lanes
    requires { lane < widest }
    ensures { result ≡ only lane (has set lane && test) }
{
    if test { set & (1u32 << lane) } else { 0 }
}

// `new` where `picked`, and else `old`: a value for the writer's loop, which so has no branch.
pub(crate) fn chosen(picked: bool, new: u32, old: u32) -> u32
    ensures { result ≡ cond picked new old }
{
    if picked { new } else { old }
}
