// What is done at the positions of a use of a name, and in its arguments.
#![tactic(auto)]

pub mod name;
