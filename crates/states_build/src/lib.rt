// The automata of one or two sheets in the working words.
#![tactic(auto)]

pub mod build;
