// A body that is being written.
ghost use Rattle.std.specs.Prelude.{◌≡◌, []};
ghost use Rattle.formats.specs.Format.{number};
ghost use Rattle.key.specs.Putting.{Put};

use body::fields::{BLOCK_BYTES, FAULT_BYTES, HEAD_BYTES};
use faulting::faults::KINDS;
use lanes::said::DEEPEST;
use numbers::put;
use std::marker::Model;

// The bytes of every fault kind and 32 blocks: room for what any state says, of the layout or not.
const ROOM: usize = HEAD_BYTES + FAULT_BYTES * KINDS + BLOCK_BYTES * DEEPEST;

// The first `length` of `bytes` are written. What is put past the room is left off.
#[derive(Drop)]
pub(crate) struct Draft {
    bytes: [u8; ROOM],
    length: usize,
}

impl Model for Draft {
    ghost use Rattle.std.specs.Prelude.{ℕ, List, take, ◌≤◌};
    ghost use Rattle.key.specs.Putting.{room};

    ghost Value = { List ℕ };

    ghost view = { λ d. take d.length d.bytes };

    ghost invariant = { λ d. d.length ≤ room };
}

impl Draft {
    // A body of which nothing is written.
    pub(crate) fn new() -> Draft
        ensures { result ≡ [] }
    {
        Draft {
            bytes: [0; ROOM],
            length: 0,
        }
    }

    // What is written.
    pub(crate) fn as_bytes(&self) -> &[u8]
        ensures { result.now ≡ self.now }
    {
        &self.bytes[..self.length]
    }

    // Puts a number behind what is written, as far as it fits.
    pub(crate) fn put(&mut self, n: u32)
        ensures { Put (number 4) n self.old self.new }
    {
        put(&mut self.bytes, self.length, n);
        self.length = ROOM.min(self.length + 4);
    }
}
