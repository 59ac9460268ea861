// The first two classes: the accepting state alone, and all the others.
ghost use Rattle.std.specs.Prelude.{◌≢◌, ◌+◌, ◌-◌, ◌*◌, ◌<◌, ◌≤◌, length};
ghost use Rattle.dfa_sorting.specs.inner.Starting.{Placed, Started};

use dfa::words::put;
use dfa_classes::places::exchange;
use dfa_classes::words::{set_from, set_to};

// Every state is in class 0, at the place of its number.
pub(crate) fn place_states(words: &mut [u32], n: usize)
    requires { (n ≤ 8192) × (5 * n ≤ length words.old) }
    ensures { Placed n n words.old words.new }
{
    for p in 0..n {
        put(words, p, 0);
        put(words, n + p, p);
        put(words, 2 * n + p, p);
    }
}

// The state f, brought to the last place, is in class 1.
pub(crate) fn first_classes(words: &mut [u32], n: usize, f: usize)
    requires { (n ≤ 8192) × ((5 * n ≤ length words.old) × ((f < n) × ((f ≢ n - 1) × Placed n n words.old words.old))) }
    ensures { Started n f words.old words.new }
{
    set_from(words, n, 0, 0);
    set_to(words, n, 0, n);
    exchange(words, n, f, n - 1);
    put(words, f, 1);
    set_to(words, n, 0, n - 1);
    set_from(words, n, 1, n - 1);
    set_to(words, n, 1, n);
}
