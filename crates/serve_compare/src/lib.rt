// The services: check (crate sheet_judge), follow, compare and look.
#![tactic(auto)]

use play_words::Difference;
use sheet_judge::mark::Uses;
use sheet_records::refusal::Sheets;

// Refusals, handed on.
pub mod causes;
// The service follow.
pub mod follow;
// What compare and look share.
mod examine;
// The service compare.
pub mod compare;
// The service look.
pub mod look;

// The most moves that the first play of exactly one of two sheets can have: S + T - 1 for two sheets of the greatest size.
pub(crate) const MOST_MOVES: usize = 8191;

// The answer of follow: how many moves at the start of the play begin some complete play, and whether the whole play is
// complete.
#[derive(Drop)]
pub struct Following {
    pub count: usize,
    pub complete: bool,
}

// What examining two sheets gives: how they differ by the plays that are compared, S + T - 1, and the names that the old
// and the new sheet use.
#[derive(Drop)]
pub(crate) struct Examined {
    pub(crate) found: Option<Difference>,
    pub(crate) whole: usize,
    pub(crate) old: Uses,
    pub(crate) new: Uses,
}

// The answer of compare: how the sheets differ, None where they have the same complete plays, and the names that the old
// and the new sheet use.
#[derive(Drop)]
pub struct Comparison {
    pub found: Option<Difference>,
    pub old: Uses,
    pub new: Uses,
}

// What look finds: the same complete plays; a play that only one sheet has, and which has it; or no such play so far.
#[derive(Drop)]
pub enum Outcome {
    Same,
    Apart { sheet: Sheets },
    SoFar,
}

// The answer of look: what is found, the number of moves looked through, and the names that the old and the new sheet
// use.
#[derive(Drop)]
pub struct Looking {
    pub outcome: Outcome,
    pub looked: usize,
    pub old: Uses,
    pub new: Uses,
}
