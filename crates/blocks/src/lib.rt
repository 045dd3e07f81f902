// The blocks of a kernel's code: the rules, and the check.
#![tactic(auto)]

pub mod item;
pub mod rules;
pub mod structure;
