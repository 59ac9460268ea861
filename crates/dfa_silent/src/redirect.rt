// Edges led to where their targets settle.
ghost use Rattle.std.specs.Prelude.{◌≡◌, ◌+◌, ◌*◌, ◌<◌, get_or};
ghost use Rattle.dfa.specs.Graph.{Graph, rest};
ghost use Rattle.dfa_silent.specs.inner.Settle.{Whole, ended, Redirected};

use dfa::words::{at, put};

// Where x settles: the end of its path.
fn settled_at(words: &[u32], n: usize, x: usize) -> usize
    requires { Whole n words.now × (x < n) }
    ensures { result ≡ ended words.now n x }
{
    at(words, n + x) - 1
}

// Every edge is led to the end of its target's path.
pub(crate) fn redirect(words: &mut [u32], n: usize)
    requires { Graph (rest (5 * n) words.old) n × Whole n words.old }
    ensures { Redirected n words.old words.new (get_or words.old (5 * n + n) 0) }
{
    let base = 5 * n + n;
    let first = at(words, 5 * n);
    let end = at(words, base);
    for i in first..end {
        let x = at(words, base + 2 + 2 * i);
        let y = settled_at(words, n, x);
        put(words, base + 2 + 2 * i, y);
    }
}
