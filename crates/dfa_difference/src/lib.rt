// The first difference of two states of an automaton in lent words.
#![tactic(auto)]

pub mod search; // search.rt: the first difference

// n states; the two to compare; the accepting ones, which may be one; the most letters of a word that is looked for.
#[derive(Clone, Copy)]
pub struct Task {
    pub n: usize,
    pub p: usize,
    pub q: usize,
    pub f: usize,
    pub g: usize,
    pub most: usize,
}
