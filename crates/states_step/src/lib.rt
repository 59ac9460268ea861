// What the automaton of a term does at a position, by the table of parts.
#![tactic(auto)]

// From a position of a term to one of its parts.
pub mod down;
