// Capture files: everything that a run takes, packed as numbers of four bytes, low byte first.
//
// Thirteen numbers: the bytes 57 43 41 50, edition 1, kernel number, width, registers, lanes, budget, then the counts of words
// of code, registers, device memory, local memory and state, and 0. The words of each follow in that order, to the end of the
// file. A launch has no state; a state's words are place, active, halted, p1, p2, p3, depth, and six for each open block.
#![tactic(auto)]

pub mod answer;
mod reading;
mod testing;
mod writing;

pub use reading::read;
pub use writing::write;

// The bytes 57 43 41 50 as a number.
const MARK: u32 = 0x5041_4357;

const EDITION: u32 = 1;

// How many settings there are, and how many parts.
const SETTINGS: usize = 5;

const PARTS: usize = 5;

// Where the header's numbers stand behind the mark, four bytes each: the edition, the settings, the counts of words of each part, and a
// sixth count.
const EDITION_PLACE: usize = 4;

const SETTINGS_PLACE: usize = EDITION_PLACE + 4;

const COUNTS_PLACE: usize = SETTINGS_PLACE + 4 * SETTINGS;

const SIXTH_PLACE: usize = COUNTS_PLACE + 4 * PARTS;

// The bytes of the header.
pub const HEADER_BYTES: usize = SIXTH_PLACE + 4;
