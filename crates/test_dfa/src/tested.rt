// Whether the words are an automaton.
ghost use Rattle.std.specs.Prelude.{◌≡◌, true, ◌+◌, ◌*◌, ◌<◌, ◌≤◌, length, get_or};
ghost use Rattle.dfa.specs.Graph.{Graph, Edges, rest};
ghost use Rattle.dfa_live.specs.Marks.{Markable};
ghost use Rattle.dfa_silent.specs.Silent.{Silent};
ghost use Rattle.test_dfa.specs.Tested.{EdgeOk};

use dfa::words::at;

// At most so many states.
const STATES: usize = 8193;

// Letters are below 2^27.
const LETTERS: usize = 134217728;

// At most so many edges can be linked to mark the live states.
const EDGES: usize = 131072;

// Edge k and the next one, if it is before end, are in range and in order.
fn edge_ok(graph: &[u32], n: usize, k: usize, end: usize) -> bool
    requires { (k < end) × (n + 1 + 2 * end ≤ length graph.now) }
    ensures { result ≡ true → EdgeOk graph.now n k end }
{
    let m = at(graph, n + 1 + 2 * k);
    if LETTERS <= m {
        return false;
    }
    if n <= at(graph, n + 2 + 2 * k) {
        return false;
    }
    let next = k + 1;
    if end <= next {
        return true;
    }
    let o = at(graph, n + 1 + 2 * next);
    if o <= m {
        return false;
    }
    true
}

// The edges from i to end are in range and in order.
fn edges_ok(graph: &[u32], n: usize, i: usize, end: usize) -> bool
    requires { (i ≤ end) × (n + 1 + 2 * end ≤ length graph.now) }
    ensures { result ≡ true → Edges graph.now n i end }
{
    for k in i..end {
        if !edge_ok(graph, n, k, end) {
            return false;
        }
    }
    true
}

// The edges of p are.
fn state_ok(graph: &[u32], n: usize, p: usize) -> bool
    requires { (p < n) × (n < length graph.now) }
    ensures { result ≡ true
        → Edges graph.now n (get_or graph.now p 0) (get_or graph.now (p + 1) 0) }
{
    let i = at(graph, p);
    let e = at(graph, p + 1);
    if e < i {
        return false;
    }
    let room = (graph.len() - n - 1) / 2;
    if room < e {
        return false;
    }
    edges_ok(graph, n, i, e)
}

// Whether graph is an automaton of n states.
fn graph_ok(graph: &[u32], n: usize) -> bool
    ensures { result ≡ true → Graph graph.now n }
{
    if n == 0 {
        return false;
    }
    if STATES < n {
        return false;
    }
    if graph.len() <= n {
        return false;
    }
    (0..n).all(|p| state_ok(graph, n, p))
}

// Whether the words from 5 n on are an automaton of n states.
pub(crate) fn words_ok(words: &[u32], n: usize) -> bool
    ensures { result ≡ true → Graph (rest (5 * n) words.now) n }
{
    if STATES < n {
        return false;
    }
    let g = 5 * n;
    if words.len() < g {
        return false;
    }
    graph_ok(&words[g..], n)
}

// Whether the words below n lead to states.
pub(crate) fn silent_ok(words: &[u32], n: usize) -> bool
    requires { n ≤ length words.now }
    ensures { result ≡ true → Silent n words.now }
{
    words[..n].iter().all(|w| *w as usize <= n)
}

// Whether f may be the one accepting state, the dead state has no edges, and there is room to mark the live states.
pub(crate) fn live_ok(words: &[u32], n: usize, f: usize) -> bool
    ensures { result ≡ true → Markable n f words.now }
{
    if !words_ok(words, n) {
        return false;
    }
    if n - 1 <= f {
        return false;
    }
    let end = at(words, 5 * n + n);
    if at(words, 5 * n + (n - 1)) != end {
        return false;
    }
    if EDGES < end {
        return false;
    }
    6 * n + 1 + 3 * end <= words.len()
}
