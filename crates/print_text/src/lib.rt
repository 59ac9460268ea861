// The lines that the programs print, written at a cursor.
#![tactic(auto)]

pub mod lines;
pub mod write;
