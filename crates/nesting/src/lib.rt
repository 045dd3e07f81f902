// The blocks of a kernel's code as they nest: which are open at a place.
#![tactic(auto)]

pub mod places;
