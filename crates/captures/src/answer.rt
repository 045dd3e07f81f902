// What a capture says apart from its words, and what reading one answers.
ghost use Rattle.std.specs.Prelude.{◌≡◌};
ghost use Rattle.captures.specs.Capture.{count_place};

use crate::COUNTS_PLACE;

// The kernel number and the settings of the run, which nothing here checks.
#[derive(Clone, Copy, Debug, PartialEq, Eq, Hash)]
pub struct Head {
    pub kernel: u32,
    pub width: u32,
    pub registers: u32,
    pub lanes: u32,
    pub budget: u32,
}

// One of each part: its words, how many there are, the room for them, or where they begin.
#[derive(Clone, Copy, Debug, PartialEq, Eq, Hash)]
pub struct Parts<T> {
    pub code: T,
    pub registers: T,
    pub device: T,
    pub local: T,
    pub state: T,
}

// A part, where one is told of.
#[derive(Clone, Copy, Debug, PartialEq, Eq, Hash)]
pub enum Part {
    Code,
    Registers,
    Device,
    Local,
    State,
}

impl Part {
    // Where the header has the part's count of words.
    pub fn count_place(self) -> usize
        ensures { result ≡ count_place self }
    {
        let before = match self {
            Part::Code => 0,
            Part::Registers => 1,
            Part::Device => 2,
            Part::Local => 3,
            Part::State => 4,
        };
        COUNTS_PLACE + 4 * before
    }
}

// What a file that is no capture breaks: the bytes 57 43 41 50, edition 1, thirteen numbers, a count that there is room for, a
// state's count of 0 or 7 + 6 x depth, a sixth count of 0, the file's end behind the words, the depth that the state's count gives.
#[derive(Clone, Copy, Debug, PartialEq, Eq, Hash)]
pub enum Rule {
    Mark,
    Edition,
    Header,
    Room(Part),
    StateCount,
    SixthCount,
    Length,
    Depth,
}

// What stands in a capture's file: its kernel number and settings, and how many words there are of each part.
#[derive(Clone, Copy, Debug, PartialEq, Eq, Hash)]
pub struct Capture {
    pub head: Head,
    pub counts: Parts<u32>,
}

// The first rule that a file breaks, with the byte's place.
#[derive(Clone, Copy, Debug, PartialEq, Eq, Hash)]
pub struct Unreadable {
    pub rule: Rule,
    pub place: usize,
}
