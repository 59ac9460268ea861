// The places of states.
ghost use Rattle.std.specs.Prelude.{◌≡◌, ◌+◌, ◌*◌, ◌<◌, ◌≤◌, length};
ghost use Rattle.dfa_classes.specs.Places.{member_at, exchanged};

use dfa::words::{at, put};

// The states at the places i and j are exchanged.
pub fn exchange(words: &mut [u32], n: usize, i: usize, j: usize)
    requires { (n ≤ 8192) × ((i < n) × ((j < n) × ((5 * n ≤ length words.old)
        × ((member_at n words.old i < n) × (member_at n words.old j < n))))) }
    ensures { words.new ≡ exchanged n words.old i j }
{
    let p = at(words, n + i);
    let q = at(words, n + j);
    words.swap(n + i, n + j);
    put(words, 2 * n + q, i);
    put(words, 2 * n + p, j);
}
