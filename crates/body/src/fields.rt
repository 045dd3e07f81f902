// What a body says, field by field. Any bytes are read: those past the end count as 0.
ghost use Rattle.std.specs.Prelude.{◌≡◌, length, get_or};
ghost use Rattle.body.specs.Body.{Parts, parts_at, no_fault};

use lanes::said::Fault;
use numbers::get;

// Where kernel number, place, count of fault kinds and the kinds stand; behind these two sets, then the depth.
pub const KERNEL_PLACE: usize = 0;

pub const PLACE_PLACE: usize = 4;

pub const COUNT_PLACE: usize = 8;

pub const KINDS_PLACE: usize = 12;

const DEPTH_PLACE: usize = 20;

// The bytes of a fault kind with its lanes, of a block, and of the six numbers beside them.
pub const FAULT_BYTES: usize = 8;

pub const BLOCK_BYTES: usize = 24;

pub const HEAD_BYTES: usize = 24;

// The kernel number of the body that `bytes` start with.
pub fn kernel(bytes: &[u8]) -> u32
    ensures { result ≡ (parts_at bytes.now).kernel }
{
    get(bytes, KERNEL_PLACE)
}

// Its place.
pub fn place(bytes: &[u8]) -> u32
    ensures { result ≡ (parts_at bytes.now).place }
{
    get(bytes, PLACE_PLACE)
}

// How many fault kinds it has.
pub fn count(bytes: &[u8]) -> u32
    ensures { result ≡ length (parts_at bytes.now).faults }
{
    get(bytes, COUNT_PLACE)
}

// Its fault kind k, counted from 0, with its lanes; kind 0 with no lanes where it has not so many.
pub fn fault(bytes: &[u8], k: usize) -> Fault
    ensures { result ≡ get_or (parts_at bytes.now).faults k no_fault }
{
    if (count(bytes) as usize) <= k {
        return Fault { kind: 0, lanes: 0 };
    }
    let at = KINDS_PLACE + FAULT_BYTES * k;
    let kind = get(bytes, at);
    let lanes = get(bytes, at + 4);
    Fault { kind, lanes }
}

// How many blocks are open.
pub fn depth(bytes: &[u8]) -> u32
    ensures { result ≡ length (parts_at bytes.now).blocks }
{
    let kinds = count(bytes) as usize;
    get(bytes, DEPTH_PLACE + FAULT_BYTES * kinds)
}
