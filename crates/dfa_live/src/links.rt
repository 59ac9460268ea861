// The edges in lists by their targets. Word t, below n, begins the list of the state t: 1 more than its first edge, or
// 0, times 2^14; what is left holds an entry of the queue. Each edge has a word: what follows it in its list, times
// 2^14, and the state that it leaves.
ghost use Rattle.std.specs.Prelude.{◌≡◌, ◌+◌, ◌*◌, ◌/◌, ◌<◌, ◌≤◌, length, get_or};
ghost use Rattle.dfa.specs.Graph.{rest};
ghost use Rattle.dfa_live.specs.inner.Links.{Held, NoLists, link_place, linked_to, Links};

use dfa::words::{at, put};

// The end of a list. No Option: it stands in lent words.
pub(crate) const NO_EDGE: usize = 0;

// More than any state, so that a word holds a state and an edge.
pub(crate) const STATES: usize = 16384;

// The words of the edges: the first 3 n stand from word 2 n on, the others behind the graph of `end` edges.
pub(crate) fn link_place(n: usize, end: usize, e: usize) -> usize
    requires { (n ≤ 8193) × ((end ≤ 200000) × (e ≤ 200000)) }
    ensures { result ≡ link_place n end e }
{
    if e < 3 * n {
        return 2 * n + e;
    }
    3 * n + 1 + 2 * end + e
}

// Edge e of the state p, whose word is at a place, is put first in the list of the state t.
fn link(words: &mut [u32], place: usize, t: usize, p: usize, e: usize)
    requires { (t < length words.old) × ((place < length words.old) × ((get_or words.old t 0 / 16384 ≤ e)
        × ((e < 200000) × (p < 16384)))) }
    ensures { words.new ≡ linked_to words.old place t p e }
{
    let next = at(words, t) / STATES;
    put(words, place, next * STATES + p);
    put(words, t, (e + 1) * STATES);
}

// Every edge is put in the list of its target.
pub(crate) fn link_edges(words: &mut [u32], n: usize)
    requires { Held (rest (5 * n) words.old) n words.old × NoLists n words.old }
    ensures { Links (rest (5 * n) words.old) n words.old words.new
        (get_or (rest (5 * n) words.old) n 0) }
{
    let end = at(words, 6 * n);
    for p in 0..n {
        let first = at(words, 5 * n + p);
        let behind = at(words, 5 * n + p + 1);
        for e in first..behind {
            let t = at(words, 6 * n + 2 + 2 * e);
            link(words, link_place(n, end, e), t, p, e);
        }
    }
}
