// The replay of one wave: launching a kernel, and going on from a state.
#![tactic(auto)]

pub mod allowed;
pub mod doors;
mod refusing;
