// One step of a wave, and the run: steps until it has ended, some lane faults or no budget is left. Nothing here tests the code.
#![tactic(auto)]

pub mod answers;
pub mod run;
pub mod settings;
pub mod step;
