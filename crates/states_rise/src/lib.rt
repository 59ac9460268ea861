// From a step of a part to one of the term around it.
#![tactic(auto)]

pub mod up;
