// The words: instructions from words, and words from instructions.
#![tactic(auto)]

pub mod reading;
pub mod writing;
