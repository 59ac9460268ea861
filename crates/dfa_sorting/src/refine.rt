// Classes made finer, splitter by splitter.
ghost use Rattle.std.specs.Prelude.{List, ◌<◌, ℕ};
ghost use Rattle.dfa_splitting.specs.inner.Refining.{ToRefine, Refinable, Refined};

use dfa_classes::touch::touch_all;
use dfa_splitting::rename::rename;
use dfa_splitting::split::split_all;

// The classes 0 and 1, of which 1 has the accepting state alone, are made finer until two states are in one class exactly
// if they accept the same words: how many classes there are.
pub(crate) fn refine(words: &mut [u32], n: usize, g: usize) -> usize
    requires { ToRefine n g words.old }
    ensures { (G : List ℕ) (f : ℕ) → Refinable G n g f words.old
        → Refined G n g f result words.new }
{
    let mut count = 2;
    let mut s = 1;
    // A while: there may be more classes after each turn.
    while s < count {
        let m = touch_all(words, n, g, s);
        let k = split_all(words, n, g, s, m, count);
        rename(words, n, count, k);
        count = k;
        s += 1;
    }
    count
}
