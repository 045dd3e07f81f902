// Sets of lanes, as masks: lane i is bit i.
#![tactic(auto)]

pub mod said;

ghost use Rattle.std.specs.Prelude.{◌≡◌, ◌≤◌, ◌&&◌, min, ltb};
ghost use Rattle.std.specs.Int.Bits.{bit_and, bit_or};
ghost use Rattle.lanes.specs.Sets as sets;
ghost use Rattle.lanes.specs.Sets.{widest};
ghost use Rattle.lanes.specs.EachLane.{by_lane};

pub type Lanes = u32;

// How many lanes the widest wave has; and the same as a length.
pub const WIDEST: u32 = 32;

pub const EACH_LANE: usize = WIDEST as usize;

// A number for each lane of the widest wave.
pub type ByLane = [u32; EACH_LANE];

// A width, or the widest wave's where it is larger: no set has a lane past that.
pub fn narrowed(width: u32) -> u32
    ensures { result ≡ min width widest }
{
    width.min(WIDEST)
}

// A width that is no larger than the widest wave's.
#[derive(Clone, Copy)]
pub struct Width {
    pub lanes: u32,
    pub ghost narrow: { lanes ≤ widest },
}

impl Width {
    // A width, or the widest wave's where it is larger.
    pub fn of(width: u32) -> Width
        ensures { result.lanes ≡ min width widest }
    {
        Width {
            lanes: narrowed(width),
        }
    }
}

// `number` for each lane of a wave of this width, 0 for the others of the widest.
pub fn each(number: u32, width: u32) -> ByLane
    ensures { result ≡ by_lane (min width widest) (λ i. number) }
{
    let end = narrowed(width) as usize;
    let mut out = [0u32; EACH_LANE];
    for i in 0..end {
        out[i] = number;
    }
    out
}

// Whether `lane` is in `set`. A lane past the widest wave is in no set.
pub fn has(set: Lanes, lane: u32) -> bool
    ensures { result ≡ sets.has set lane }
{
    (lane < WIDEST) & ((set >> (lane % WIDEST)) % 2 == 1)
}

// The lanes of either set.
pub fn union(a: Lanes, b: Lanes) -> Lanes
    ensures { result ≡ bit_or a b }
{
    a | b
}

// The lanes of both sets.
pub fn meet(a: Lanes, b: Lanes) -> Lanes
    ensures { result ≡ bit_and a b }
{
    a & b
}

// The lanes of `a` that are not in `b`.
pub fn without(a: Lanes, b: Lanes) -> Lanes
    ensures { result ≡ sets.without a b }
{
    a - (a & b)
}

// The lanes 0 to `n` - 1; every lane of the widest wave where `n` is larger than it.
pub fn first(n: u32) -> Lanes
    ensures { result ≡ sets.first (min n widest) }
{
    if n < WIDEST {
        (1u32 << n) - 1
    } else {
        0xFFFF_FFFF
    }
}

// `lane` alone where `picked`, and else no lane. A lane past the widest wave gives none.
pub fn only(lane: u32, picked: bool) -> Lanes
    ensures { result ≡ sets.only lane (picked && ltb lane widest) }
{
    if picked & (lane < WIDEST) {
        1u32 << (lane % WIDEST)
    } else {
        0
    }
}

// The lowest lane of a set, and the number of the widest wave's lanes where it has none.
pub fn lowest(set: Lanes) -> u32
    ensures { result ≡ sets.lowest widest set }
{
    u32::trailing_zeros(set)
}
