// What each operation does to numbers. A register is a u32; where the pages say signed it is read as an i32.
// Every function has an answer for all operands: a divisor of zero is the caller's fault to find.
#![tactic(auto)]

pub mod bits;
pub mod division;
pub mod products;
pub mod shifts;
pub mod signed;
pub mod sums;
