// The explicit automaton of a sheet, written into lent words.
//
// A sheet of size S has the states 0 (the start), the positions of its term, a copy for each question, its answers,
// and S - 1 (the end). In the words of an automaton of n states they stand from the state o on, as crate dfa reads
// them: word p is the silent word of the state p, word 5 n + p its first edge, and edge e is the words 6 n + 1 + 2 e,
// its letter, and 6 n + 2 + 2 e, its target.
#![tactic(auto)]

// The moves that a waiting state takes, in order, and their letters.
pub mod letters;
// Rows of the automaton in words.
mod rows;
// The edges by values that lead on by one frame.
mod answers;
// The edges of a waiting state.
mod hear;
// The automaton in words.
pub mod fill;

// A state that waits, and for whom: the name at a place of the table, with its id, asked the question of this kind and
// value; the kind OPENING is the first question of a play. A waiting state hears, or takes, the moves of that name, and
// questions to the first `count` of its arguments.
#[derive(Clone, Copy)]
pub(crate) struct Wait {
    pub state: usize,
    pub id: usize,
    pub at: usize,
    pub kind: usize,
    pub value: usize,
    pub count: usize,
}
