// The words of states, classes and edges, read and stored: a name for each, over at and put, as the definitions have
// one for each. word::<FROM>(words, n, c) would be no plainer than from(words, n, c).
ghost use Rattle.std.specs.Prelude.{◌≡◌, ◌+◌, ◌*◌, ◌<◌, ◌≤◌, ◌%◌, ◌/◌, length, get_or, set};
ghost use Rattle.dfa_classes.specs.Places.{member_at, place_at, from_at, to_at, head_at, touched_at, list_at, copy_at};
ghost use Rattle.dfa_classes.specs.Places.{first_at, letter_at, target_at};

use dfa::words::{at, put};

// More than any state, so that a word holds a target and an edge.
pub(crate) const STATES: usize = 8192;

// The state at place i.
pub fn member(words: &[u32], n: usize, i: usize) -> usize
    requires { (i < n) × ((n ≤ 8192) × (5 * n ≤ length words.now)) }
    ensures { result ≡ member_at n words.now i }
{
    at(words, n + i)
}

// The place of the state p.
pub(crate) fn place(words: &[u32], n: usize, p: usize) -> usize
    requires { (p < n) × ((n ≤ 8192) × (5 * n ≤ length words.now)) }
    ensures { result ≡ place_at n words.now p }
{
    at(words, 2 * n + p)
}

// The first place of class c.
pub fn from(words: &[u32], n: usize, c: usize) -> usize
    requires { (c < n) × ((n ≤ 8192) × (5 * n ≤ length words.now)) }
    ensures { result ≡ from_at n words.now c }
{
    at(words, 3 * n + c)
}

// The end of the places of class c.
pub fn to(words: &[u32], n: usize, c: usize) -> usize
    requires { (c < n) × ((n ≤ 8192) × (5 * n ≤ length words.now)) }
    ensures { result ≡ to_at n words.now c }
{
    at(words, 4 * n + c)
}

// Class c has its places from here on.
pub fn set_from(words: &mut [u32], n: usize, c: usize, v: usize)
    requires { (c < n) × ((v ≤ n) × ((n ≤ 8192) × (5 * n ≤ length words.old))) }
    ensures { words.new ≡ set words.old (3 * n + c) v }
{
    put(words, 3 * n + c, v);
}

// Class c has its places up to here.
pub fn set_to(words: &mut [u32], n: usize, c: usize, v: usize)
    requires { (c < n) × ((v ≤ n) × ((n ≤ 8192) × (5 * n ≤ length words.old))) }
    ensures { words.new ≡ set words.old (4 * n + c) v }
{
    put(words, 4 * n + c, v);
}

// The first edge of the state p; of n, the end of the edges.
pub fn first_edge(words: &[u32], n: usize, p: usize) -> usize
    requires { (p ≤ n) × ((n ≤ 8192) × (6 * n < length words.now)) }
    ensures { result ≡ first_at n words.now p }
{
    at(words, 5 * n + p)
}

// The letter of edge e.
pub fn edge_letter(words: &[u32], n: usize, e: usize) -> usize
    requires { (n ≤ 8192) × ((e < 262144) × (6 * n + 2 + 2 * e < length words.now)) }
    ensures { result ≡ letter_at n words.now e }
{
    at(words, 6 * n + 1 + 2 * e)
}

// The target of edge e.
pub fn edge_target(words: &[u32], n: usize, e: usize) -> usize
    requires { (n ≤ 8192) × ((e < 262144) × (6 * n + 2 + 2 * e < length words.now)) }
    ensures { result ≡ target_at n words.now e }
{
    at(words, 6 * n + 2 + 2 * e) % STATES
}

// What follows edge e in the list of its target.
pub(crate) fn edge_next(words: &[u32], n: usize, e: usize) -> usize
    requires { (n ≤ 8192) × ((e < 262144) × (6 * n + 2 + 2 * e < length words.now)) }
    ensures { result ≡ get_or words.now (6 * n + 2 + 2 * e) 0 / 8192 }
{
    at(words, 6 * n + 2 + 2 * e) / STATES
}

// How many members of class i are touched.
pub fn touched(words: &[u32], n: usize, g: usize, i: usize) -> usize
    requires { (i < n) × ((n ≤ 8192) × ((g ≤ 600000) × (g + 4 * n ≤ length words.now))) }
    ensures { result ≡ touched_at n g words.now i }
{
    at(words, g + n + i)
}

// The touched class number i.
pub fn listed(words: &[u32], n: usize, g: usize, i: usize) -> usize
    requires { (i < n) × ((n ≤ 8192) × ((g ≤ 600000) × (g + 4 * n ≤ length words.now))) }
    ensures { result ≡ list_at n g words.now i }
{
    at(words, g + 2 * n + i)
}

// The state number i of the copy.
pub fn copied(words: &[u32], n: usize, g: usize, i: usize) -> usize
    requires { (i < n) × ((n ≤ 8192) × ((g ≤ 600000) × (g + 4 * n ≤ length words.now))) }
    ensures { result ≡ copy_at n g words.now i }
{
    at(words, g + 3 * n + i)
}

// The head of the list of edges that lead to the state t.
pub(crate) fn head(words: &[u32], n: usize, g: usize, t: usize) -> usize
    requires { (t < n) × ((n ≤ 8192) × ((g ≤ 600000) × (g + 4 * n ≤ length words.now))) }
    ensures { result ≡ head_at g words.now t }
{
    at(words, g + t)
}

// So many members of class i are touched.
pub fn set_touched(words: &mut [u32], n: usize, g: usize, i: usize, v: usize)
    requires { (i < n) × ((v ≤ n) × ((n ≤ 8192) × ((g ≤ 600000) × (g + 4 * n ≤ length words.old)))) }
    ensures { words.new ≡ set words.old (g + n + i) v }
{
    put(words, g + n + i, v);
}

// The touched class number i is v.
pub(crate) fn set_listed(words: &mut [u32], n: usize, g: usize, i: usize, v: usize)
    requires { (i < n) × ((v ≤ n) × ((n ≤ 8192) × ((g ≤ 600000) × (g + 4 * n ≤ length words.old)))) }
    ensures { words.new ≡ set words.old (g + 2 * n + i) v }
{
    put(words, g + 2 * n + i, v);
}

// The state that edge e leaves: halving, between a state whose edges begin at e or before and one whose edges begin behind.
pub(crate) fn source(words: &[u32], n: usize, e: usize) -> usize
    requires { (0 < n) × ((n ≤ 8192) × ((6 * n < length words.now) × ((first_at n words.now 0 ≤ e)
        × (e < first_at n words.now n)))) }
    ensures { (result < n) × ((first_at n words.now result ≤ e)
        × (e < first_at n words.now (result + 1))) }
{
    let mut low = 0;
    let mut high = n;
    while low + 1 < high {
        let middle = (low + high) / 2;
        if first_edge(words, n, middle) <= e {
            low = middle;
        } else {
            high = middle;
        }
    }
    low
}
