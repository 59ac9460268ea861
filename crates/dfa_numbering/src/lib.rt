// The classes of an automaton numbered breadth first, and the table of positions that they are. The words are those of
// crate dfa_classes, of which the members and the places are no longer needed.
#![tactic(auto)]

pub mod number;
