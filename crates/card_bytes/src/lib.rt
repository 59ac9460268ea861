// The bytes of a table of positions, written from the words of numbered classes (crate dfa_numbering). Document 02, [12].
#![tactic(auto)]

// A move of a position.
mod arc;
// The positions.
pub mod positions;
