// The table of operations: which opcode and modifier each has.
#![tactic(auto)]

pub mod table;
