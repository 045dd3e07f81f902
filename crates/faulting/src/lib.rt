// Which lanes fault, by kind: the kinds with their lanes, and the lanes whose address or divisor faults.
#![tactic(auto)]

pub mod addresses;
pub mod divisors;
pub mod faults;
mod picking;
