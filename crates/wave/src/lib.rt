// The wave: its state, the executing lanes of an instruction, and going on to the next.
#![tactic(auto)]

pub mod going;
pub mod guarding;
pub mod launch;
pub mod state;
