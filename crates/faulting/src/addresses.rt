// The lanes whose addresses fault.
ghost use Rattle.std.specs.Prelude.{◌≡◌, ◌≤◌, min, eqb, get_or, take};
ghost use Rattle.ground.specs.Tests.{all_of};
ghost use Rattle.lanes.specs.Sets.{widest};
ghost use Rattle.faulting.specs.Kinds.{past_kind};
ghost use Rattle.faulting.specs.Causes.{is_past, is_over, sum_fault, base_of, in_reach, fault_lanes, address_faults};
ghost use Rattle.faulting.specs.AddressKinds.{number, number_of};

use crate::faults::{Faults, no_faults};
use crate::picking::lanes_where;
use arith::sums::{address, sub};
use instructions::instr::Space;
use lanes::{ByLane, Lanes, Width};

// How many of a memory's words an address can name.
fn nameable(words: usize) -> u32
    ensures { result ≡ min words 0x40000000 }
{
    words.min(0x4000_0000) as u32
}

// Whether an address is past a memory of so many words.
fn past_end(address: u32, words: u32) -> bool
    ensures { result ≡ is_past words address }
{
    words <= address / 4
}

// Whether a base plus an offset reaches 2^32: their sum has then wrapped round, to below the offset.
fn is_over(base: u32, offset: u32) -> bool
    ensures { result ≡ is_over base offset }
{
    address(base, offset) < offset
}

// A kind of fault that an address has.
#[derive(Clone, Copy, PartialEq, Eq)]
enum AddressKind {
    // Not a multiple of 4.
    Odd,
    // Past the device memory.
    PastDevice,
    // Past the local memory.
    PastLocal,
    // A base plus an offset that reaches 2^32.
    Over,
}

// The kind of an address past a memory.
fn past_kind(space: Space) -> AddressKind
    ensures { number result ≡ past_kind space }
{
    match space {
        Space::Device => AddressKind::PastDevice,
        Space::Local => AddressKind::PastLocal,
    }
}

// What the addresses of an instruction reach: a memory, by the offset that was added to each and how many of its words they can name.
#[derive(Clone, Copy)]
struct Reach {
    space: Space,
    offset: u32,
    words: u32,
    ghost named: { words ≤ 0x40000000 },
}

impl Reach {
    // Of a memory of so many words.
    fn of(space: Space, offset: u32, words: usize) -> Reach
        ensures space { result.space ≡ space }
        ensures offset { result.offset ≡ offset }
        ensures words { result.words ≡ min words 0x40000000 }
    {
        Reach {
            space,
            offset,
            words: nameable(words),
        }
    }

    // Whether no lane's address faults, of the lanes that do not execute too: by the bits that any address has, and by the highest base,
    // whose address is the highest unless it has wrapped round.
    fn has_all(self, at: &ByLane, width: Width) -> bool
        ensures { result ≡ all_of (in_reach self.offset self.words) (take width.lanes at.now) }
    {
        if width.lanes == 0 {
            return true;
        }
        let offset = self.offset;
        let mut bits: u32 = 0;
        let mut top: u32 = 0;
        for k in 0..width.lanes as usize {
            bits |= at[k];
            top = top.max(sub(at[k], offset));
        }
        let beyond = past_end(address(top, offset), self.words);
        (bits % 4 == 0) & !is_over(top, offset) & !beyond
    }

    // The kind of fault of an address, which the offset was added to.
    fn kind_at(self, address: u32) -> Option<AddressKind>
        ensures { number_of result ≡ sum_fault self.space self.words (base_of address self.offset) self.offset }
    {
        if is_over(sub(address, self.offset), self.offset) {
            return Some(AddressKind::Over);
        }
        let unaligned = address % 4 != 0;
        if unaligned {
            return Some(AddressKind::Odd);
        }
        if past_end(address, self.words) {
            return Some(past_kind(self.space));
        }
        None
    }

    // Whether an address has this kind of fault.
    fn has_kind(self, kind: AddressKind, address: u32) -> bool
        ensures { result ≡ eqb (sum_fault self.space self.words (base_of address self.offset) self.offset) (number kind) }
    {
        self.kind_at(address) == Some(kind)
    }

    // The lanes of `t` whose address has this kind of fault.
    fn lanes_of(self, kind: AddressKind, at: &ByLane, t: Lanes, width: Width) -> Lanes
        ensures { result ≡ fault_lanes width.lanes t (λ i. sum_fault self.space self.words (base_of (get_or at.now i 0) self.offset) self.offset) (number kind) }
    {
        lanes_where(at, t, width, |address| self.has_kind(kind, address))
    }

    // The faults of the lanes `t`, kind by kind.
    fn each_kind(self, at: &ByLane, t: Lanes, width: Width) -> Faults
        ensures { result ≡ address_faults self.space width.lanes at.now self.offset self.words t }
    {
        let of = |kind| self.lanes_of(kind, at, t, width);
        Faults {
            over: of(AddressKind::Over),
            odd: of(AddressKind::Odd),
            device: of(AddressKind::PastDevice),
            local: of(AddressKind::PastLocal),
            divisor: 0,
            barrier: 0,
        }
    }
}

// The faults of the lanes `t` at their addresses, each a base with the offset added, in a memory of so many words. The lanes are looked at by
// a call for each memory, so that the shortcut alone is compiled into the callers.
pub fn address_faults(
    space: Space,
    at: ByLane,
    offset: u32,
    words: usize,
    t: Lanes,
    width: u32,
) -> Faults
    ensures { result ≡ address_faults space width at offset words t }
{
    let wave = Width::of(width);
    if Reach::of(space, offset, words).has_all(&at, wave) {
        return no_faults();
    }
    match space {
        Space::Device => Reach::of(Space::Device, offset, words).each_kind(&at, t, wave),
        Space::Local => Reach::of(Space::Local, offset, words).each_kind(&at, t, wave),
    }
}
