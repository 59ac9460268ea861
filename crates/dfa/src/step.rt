// The edges of two states, gone through together in the order of their letters.
ghost use Rattle.std.specs.Prelude.{◌≡◌, ◌+◌, ◌-◌, ◌≤◌, ◌<◌, length};
ghost use Rattle.dfa.specs.Graph.{Edges, letter, look};
ghost use Rattle.dfa.specs.Step.{Past, Ended, Moved};

use crate::words::at;

// More than any letter: where there is no edge left. A number: the smaller of two next letters is then one.
const NO_LETTER: usize = 4294967295;

// The letter of the next edge; NO_LETTER where there is none.
fn next_letter(graph: &[u32], n: usize, i: usize, end: usize) -> usize
    requires { Edges graph.now n i end }
    ensures { (i < end → result ≡ letter graph.now n i) × (end ≤ i → result ≡ 4294967295) }
{
    if i < end {
        at(graph, n + 1 + 2 * i)
    } else {
        NO_LETTER
    }
}

// The target by the letter m, where the next edge is the first that may have it.
fn target_by(graph: &[u32], n: usize, i: usize, end: usize, m: usize) -> usize
    requires { Edges graph.now n i end × ((0 < n) × (i < end → m ≤ letter graph.now n i)) }
    ensures { result ≡ look graph.now n m (end - i) i }
{
    if end <= i {
        return n - 1;
    }
    if at(graph, n + 1 + 2 * i) == m {
        return at(graph, n + 2 + 2 * i);
    }
    n - 1
}

// The next edge behind the letter m.
fn past(graph: &[u32], n: usize, i: usize, end: usize, m: usize) -> usize
    requires { Edges graph.now n i end × (i < end → m ≤ letter graph.now n i) }
    ensures { Past graph.now n i end m result }
{
    if end <= i {
        return i;
    }
    if at(graph, n + 1 + 2 * i) == m {
        return i + 1;
    }
    i
}

// The smaller of two numbers.
fn smaller(a: usize, b: usize) -> usize
    ensures { (result ≤ a) × ((result ≤ b) × ((a < b → result ≡ a) × (b ≤ a → result ≡ b))) }
{
    if a < b {
        return a;
    }
    b
}

// The edges of two states: i to ie, j to je.
#[derive(Drop)]
pub struct Ends {
    pub i: usize,
    pub ie: usize,
    pub j: usize,
    pub je: usize,
}

// The edges of two states.
pub fn ends_of(graph: &[u32], p: usize, q: usize) -> Ends
    requires { (p + 1 < length graph.now) × (q + 1 < length graph.now) }
    ensures { Ended graph.now p q result }
{
    let i = at(graph, p);
    let ie = at(graph, p + 1);
    let j = at(graph, q);
    let je = at(graph, q + 1);
    Ends {
        i: i,
        ie: ie,
        j: j,
        je: je,
    }
}

// A letter, the states a and b to which it leads, and the next edges i and j.
#[derive(Drop)]
pub struct Move {
    pub letter: usize,
    pub a: usize,
    pub b: usize,
    pub i: usize,
    pub j: usize,
}

// The next letter of either list of edges: where it leads on each side, and the cursors behind it.
pub fn step(graph: &[u32], n: usize, i: usize, ie: usize, j: usize, je: usize) -> Move
    requires { Edges graph.now n i ie × (Edges graph.now n j je × ((0 < n) × (i + j < ie + je))) }
    ensures { Moved graph.now n i ie j je result }
{
    let m = smaller(next_letter(graph, n, i, ie), next_letter(graph, n, j, je));
    let a = target_by(graph, n, i, ie, m);
    let b = target_by(graph, n, j, je, m);
    let x = past(graph, n, i, ie, m);
    let y = past(graph, n, j, je, m);
    Move {
        letter: m,
        a: a,
        b: b,
        i: x,
        j: y,
    }
}
