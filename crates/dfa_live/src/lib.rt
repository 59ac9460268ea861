// Live states of an automaton in lent words: those that accept some word.
// Of the work space below word 5 n, a word below n begins a list of edges and holds an entry of a queue of states, and
// from word n on stand the marks. Each edge has a word more: the first 3 n from word 2 n on, the others behind the
// graph.
#![tactic(auto)]

ghost use Rattle.std.specs.Prelude.{◌≡◌, true, ◌↔◌, ◌+◌, ◌*◌, ◌≤◌, ◌<◌, length, get_or};
ghost use Rattle.dfa.specs.Graph.{rest, SameEdges};
ghost use Rattle.dfa_live.specs.Marks.{Markable, Marks};

use crate::links::link_edges;
use crate::marks::{LIVE, mark};
use dfa::words::{at, clear};

mod links; // links.rt: the edges in lists by their targets
mod marks; // marks.rt: the live states found, from the accepting one back

// Word n + p becomes 1 exactly where the state p is live, and f alone accepts. The words below 5 n and those behind
// the graph may change.
pub fn mark_live(words: &mut [u32], n: usize, f: usize)
    requires { Markable n f words.old }
    ensures { Marks (rest (5 * n) words.old) n f words.new
        × SameEdges n (rest (5 * n) words.old) (rest (5 * n) words.new) }
{
    let cut = 2 * n;
    clear(&mut words[..cut]);
    link_edges(words, n);
    mark(words, n, f);
}

// Whether the state p is marked.
pub fn is_marked(words: &[u32], n: usize, p: usize) -> bool
    requires { (n ≤ 8193) × ((p < n) × (2 * n ≤ length words.now)) }
    ensures { (result ≡ true) ↔ (get_or words.now (n + p) 0 ≡ 1) }
{
    at(words, n + p) == LIVE
}
