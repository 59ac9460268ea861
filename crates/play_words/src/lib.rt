// Plays by the words of automata: how far a play's records lead, and the play that a search has found.
#![tactic(auto)]

use sheet_records::refusal::Sheets;

// A play's records walked through an automaton.
pub mod walk;
// The play of an entry of the search, written as records.
pub mod show;

// How two sheets differ by their plays: the sheet that has the first play that only one of them has, and its number of
// moves.
#[derive(Drop)]
pub struct Difference {
    pub sheet: Sheets,
    pub moves: usize,
}
