// What a key says of lanes: an open block, and a fault kind.
use crate::Lanes;

// The room for nesting: no more blocks are open; and the same as a length.
pub const NESTING: u32 = 32;

pub const DEEPEST: usize = NESTING as usize;

// A block's part. A number and no enum: a state that is handed in may hold any, and 11 refuses it.
pub const BEFORE_ELSE: u32 = 1;

pub const AFTER_ELSE: u32 = 2;

pub const LOOP: u32 = 3;

// An open block: its part, the place of its opener, and the lanes entered, aside, again and left.
#[derive(Clone, Copy)]
pub struct Block {
    pub part: u32,
    pub opener: u32,
    pub entered: Lanes,
    pub aside: Lanes,
    pub again: Lanes,
    pub left: Lanes,
}

// A fault kind, by the number that a key has for it, and its lanes. A number and no enum: bytes that are no body are read too, and may have any.
#[derive(Clone, Copy)]
pub struct Fault {
    pub kind: u32,
    pub lanes: Lanes,
}
