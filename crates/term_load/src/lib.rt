// From the bytes of a sheet to the rows of its term.
#![tactic(auto)]

pub mod load;
