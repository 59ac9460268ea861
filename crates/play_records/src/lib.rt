// The records of a play: how they are read and written.
#![tactic(auto)]

pub mod play;
