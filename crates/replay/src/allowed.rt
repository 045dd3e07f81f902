// What the page allows at most: registers for each lane, steps, words of code.
pub const MOST_REGISTERS: u32 = 256;

pub const MOST_STEPS: u32 = 1_000_000_000;

pub const MOST_WORDS: usize = 65536;
