// The instruction, apart from its words: the operations, the forms with their limits, and which fields are registers.
#![tactic(auto)]

pub mod forms;
pub mod instr;
pub mod registers;
