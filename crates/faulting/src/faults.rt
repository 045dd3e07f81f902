// The faults of an instruction, built and tested: the lanes of each kind. A new kind is a field here, with its entry in what names every
// kind, and an entry of `every` and `of_kinds` in specs/Kinds.
ghost use Rattle.std.specs.Prelude.{◌≡◌, ℕ, ◌-◌, get_or};
ghost use Rattle.faulting.specs.Kinds.{of_kinds, no_faults, of_divisors, of_barrier, clear, lanes_of_kind};

use lanes::Lanes;

// How many kinds there are: their numbers are 1 to this.
pub const KINDS: usize = 6;

// The lanes of each kind of fault, in the order in which they are tested: 6 a base plus an offset that reaches 2^32, 1 an address that is
// not a multiple of 4, 2 device and 3 local address past the memory, 4 a divisor of zero, 5 a barrier that some lane has not reached.
#[derive(Clone, Copy, PartialEq, Eq)]
pub struct Faults {
    pub over: Lanes,
    pub odd: Lanes,
    pub device: Lanes,
    pub local: Lanes,
    pub divisor: Lanes,
    pub barrier: Lanes,
}

// No fault.
pub fn no_faults() -> Faults
    ensures { result ≡ no_faults }
{
    Faults {
        odd: 0,
        device: 0,
        local: 0,
        divisor: 0,
        barrier: 0,
        over: 0,
    }
}

// The faults of these lanes of every kind, in the kinds' order.
pub fn from_lanes(lanes: [Lanes; KINDS]) -> Faults
    ensures { result ≡ of_kinds (λ (k : ℕ). get_or lanes (k - 1) 0) }
{
    Faults {
        odd: lanes[0],
        device: lanes[1],
        local: lanes[2],
        divisor: lanes[3],
        barrier: lanes[4],
        over: lanes[5],
    }
}

// The faults of divisors of zero.
pub(crate) fn of_divisors(lanes: Lanes) -> Faults
    ensures { result ≡ of_divisors lanes }
{
    Faults {
        divisor: lanes,
        ..no_faults()
    }
}

// The faults of a barrier.
pub fn of_barrier(lanes: Lanes) -> Faults
    ensures { result ≡ of_barrier lanes }
{
    Faults {
        barrier: lanes,
        ..no_faults()
    }
}

// Whether no lane faults.
pub fn is_clear(f: Faults) -> bool
    ensures { result ≡ clear f }
{
    f == no_faults()
}

// The lanes of a kind, by its number, which may be any, as its promise has it; none where there is no such kind.
#[tactic(auto, unfolding(crate::specs::Kinds::lanes_among))]
pub fn lanes_of_kind(kind: usize, f: Faults) -> Lanes
    ensures { result ≡ lanes_of_kind kind f }
{
    match kind {
        1 => f.odd,
        2 => f.device,
        3 => f.local,
        4 => f.divisor,
        5 => f.barrier,
        6 => f.over,
        _ => 0,
    }
}
