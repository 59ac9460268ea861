// The edges in lists by their targets, in the words of the targets.
ghost use Rattle.std.specs.Prelude.{List, ◌≡◌, ◌+◌, ◌*◌, ◌<◌, ◌≤◌, ℕ, length, get_or, set};
ghost use Rattle.dfa_classes.specs.inner.Linking.{ToLink, Linking, Zeroed};

use crate::words::{STATES, edge_target, first_edge, head};
use dfa::words::put;

// The `size` words from `from` on become 0.
pub fn zero(words: &mut [u32], from: usize, size: usize)
    requires { (from + size ≤ length words.old) × (from + size < 4294967296) }
    ensures { Zeroed from size words.old words.new }
{
    words[from..from + size].fill(0);
}

// Edge e is put first in the list of its target t, before the edge `next`.
fn link(words: &mut [u32], n: usize, g: usize, e: usize, t: usize, next: usize)
    requires { (n ≤ 8192) × ((e < 262144) × ((t < n) × ((next ≤ e) × ((g ≤ 600000) × ((g + t < length words.old)
        × (6 * n + 2 + 2 * e < length words.old)))))) }
    ensures { words.new ≡ set (set words.old (6 * n + 2 + 2 * e) (t + 8192 * next)) (g + t)
        (e + 1) }
{
    put(words, 6 * n + 2 + 2 * e, t + STATES * next);
    put(words, g + t, e + 1);
}

// Every edge is put in the list of its target.
pub fn link_edges(words: &mut [u32], n: usize, g: usize)
    requires { ToLink n g words.old }
    ensures { (G : List ℕ) → Linking G n g words.old (get_or G 0 0) words.old
        → Linking G n g words.old (get_or G n 0) words.new }
{
    let end = first_edge(words, n, n);
    for e in first_edge(words, n, 0)..end {
        let t = edge_target(words, n, e);
        let next = head(words, n, g, t);
        link(words, n, g, e, t, next);
    }
}
