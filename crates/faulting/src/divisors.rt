// The lanes whose divisors fault.
ghost use Rattle.std.specs.Prelude.{◌≡◌};
ghost use Rattle.faulting.specs.Causes.{divisor_faults};

use crate::faults::{Faults, of_divisors};
use crate::picking::lanes_where;
use lanes::{ByLane, Lanes, Width};

// The faults of the lanes `t` that divide by their divisors.
pub fn divisor_faults(divisors: ByLane, t: Lanes, width: u32) -> Faults
    ensures { result ≡ divisor_faults width divisors t }
{
    of_divisors(lanes_where(&divisors, t, Width::of(width), |divisor| divisor == 0))
}
