// Deterministic automata in lent words.
// An automaton has n states, at most 8,193; the state n - 1 is dead. Letters are below 2^27. The words below 5 n are
// work space. The graph stands from word 5 n on: n + 1 words, the first edge of each state and the end; then two words
// an edge, its letter and its target, in each state in the order of the letters.
#![tactic(auto)]

pub mod words; // words.rt: reading, storing, clearing
pub mod graph; // graph.rt: the state to which a letter leads
pub mod step; // step.rt: the letters of two states, in order, and where each leads
