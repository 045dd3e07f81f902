// The lanes whose number passes a test.
ghost use Rattle.std.specs.Prelude.{◌≡◌, ℕ, Bool, ◌&&◌, get_or};
ghost use Rattle.lanes.specs.Sets.{has, set_of};
ghost use Rattle.faulting.specs.Asks.{Asks};

use lanes::{ByLane, Lanes, Width};

// The lanes of `t` whose number passes a test.
pub(crate) fn lanes_where<F: Fn(u32) -> bool>(
    numbers: &ByLane,
    t: Lanes,
    width: Width,
    test: F,
) -> Lanes
    requires { F.IsAlwaysCallable test }
    ensures { (p : ℕ → Bool) → Asks (F.post test) p → result ≡ set_of width.lanes (λ i. has t i && p (get_or numbers.now i 0)) }
{
    let mut set: Lanes = 0;
    for lane in 0..width.lanes {
        let passes = test(numbers[lane as usize]);
        set = lanes::union(set, lanes::only(lane, lanes::has(t, lane) & passes));
    }
    set
}
