// Rows of the automaton in words: the silent word and the first edge of a state, and its edges.
ghost use Rattle.std.specs.Prelude.{◌≡◌, ◌<◌, length};
ghost use Rattle.states_words.specs.inner.Rows.{held, with_edge, with_head};

use sheet_records::read::{LONGS, SHORTS};
use states_positions::row::{mul_add, sum};

// Where parts of an automaton of n states begin: this many times n words are before the first edges of its states, and
// before the end of its edges.
const FIRSTS: usize = 5;

pub(crate) const EDGES: usize = 6;

// Twice a number below this, and all that is before the edges of fewer than 65,536 states, are no number too large.
const PLAIN: usize = 536870912;

// Word i becomes v, where there is such a word.
pub(crate) fn put(words: &mut [u32], i: usize, v: usize)
    ensures { words.new ≡ held words.old i v }
{
    if i < words.len() {
        words[i] = (v % LONGS) as u32;
    }
}

// Word i, which there is, becomes v.
fn store(words: &mut [u32], i: usize, v: usize)
    requires { i < length words.old }
    ensures { words.new ≡ held words.old i v }
{
    words[i] = (v % LONGS) as u32;
}

// Edge e, each of its words where there is such a word.
#[tactic(auto, unfolding(crate::specs::inner::Rows::with_edge, crate::specs::inner::Rows::edge_at))]
fn put_edge(words: &mut [u32], n: usize, e: usize, letter: usize, target: usize)
    ensures { words.new ≡ with_edge words.old n e letter target }
{
    let i = sum(mul_add(EDGES, n, 1), sum(e, e));
    put(words, i, letter);
    put(words, sum(i, 1), target);
}

// Edge e: with one test where no number can be too large and the words have both of its.
pub(crate) fn write_edge(words: &mut [u32], n: usize, e: usize, letter: usize, target: usize)
    ensures { words.new ≡ with_edge words.old n e letter target }
{
    if n < SHORTS {
        if e < PLAIN {
            let i = EDGES * n + 1 + 2 * e;
            if i + 1 < words.len() {
                store(words, i, letter);
                store(words, i + 1, target);
                return;
            }
        }
    }
    put_edge(words, n, e, letter, target);
}

// The silent word and the first edge of the state p, each where there is such a word.
#[tactic(auto, unfolding(crate::specs::inner::Rows::with_head))]
fn put_head(words: &mut [u32], n: usize, p: usize, e: usize, silent: usize)
    ensures { words.new ≡ with_head words.old n p e silent }
{
    put(words, p, silent);
    put(words, mul_add(FIRSTS, n, p), e);
}

// The same: with one test where no number can be too large and the words have both.
pub(crate) fn write_head(words: &mut [u32], n: usize, p: usize, e: usize, silent: usize)
    ensures { words.new ≡ with_head words.old n p e silent }
{
    if n < SHORTS {
        if p < PLAIN {
            let i = FIRSTS * n + p;
            if i < words.len() {
                store(words, p, silent);
                store(words, i, e);
                return;
            }
        }
    }
    put_head(words, n, p, e, silent);
}
