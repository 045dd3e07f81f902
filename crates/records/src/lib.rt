// The records of a day file: reading one, and finding for each the first one with equal bytes.
//
// Reading a record takes time in the length of the file. `firsts` compares each record with those before it, so its time grows with
// the square of the count, times the length of a body.
#![tactic(auto)]

mod accepting;
mod day;
mod reading;

pub use accepting::accept;
pub use day::DayFile;
pub use reading::{Record, firsts, read};
