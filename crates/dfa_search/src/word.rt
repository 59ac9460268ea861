// The word of an entry, read back along the entries from which it came.
ghost use Rattle.std.specs.Prelude.{◌≡◌, ℕ, ◌+◌, ◌*◌, ◌≤◌, length, take, List};
ghost use Rattle.dfa_search.specs.Spelled.{Trail, Spelled, Spelling};

use crate::{ENTRY, FROM, LETTER};
use dfa::words::{at, put};

// The number of letters of the word of entry k.
fn depth(work: &[u32], n: usize, k: usize) -> usize
    requires { Trail n work.now k }
    ensures { (u : List ℕ) → Spelled n work.now k u → result ≡ length u }
{
    let mut d = 0;
    let mut e = k;
    while 0 < e {
        e = at(work, n + ENTRY * e + FROM);
        d += 1;
    }
    d
}

// The word of entry k, its first letter first, from word 5 n on, over the graph: its length. The words below 5 n stay.
pub fn spell(words: &mut [u32], n: usize, k: usize) -> usize
    requires { Trail n (take (5 * n) words.old) k × (5 * n + n ≤ length words.old) }
    ensures { Spelling n k words.old words.new result }
{
    let base = 5 * n;
    let d = depth(words, n, k);
    let mut e = k;
    for i in (0..d).rev() {
        let m = at(words, n + ENTRY * e + LETTER);
        put(words, base + i, m);
        e = at(words, n + ENTRY * e + FROM);
    }
    d
}
