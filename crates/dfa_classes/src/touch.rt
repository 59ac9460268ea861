// The states that go into one class, touched: they stand first in their classes.
ghost use Rattle.std.specs.Prelude.{List, ◌<◌, ℕ, ◌≡◌};
ghost use Rattle.dfa.specs.Graph.{δ};
ghost use Rattle.dfa_smallest.specs.Classes.{Into};
ghost use Rattle.dfa_classes.specs.inner.Touching.{ToTouch, Touches, Touching};
ghost use Rattle.dfa_classes.specs.inner.Sources.{ToSources, Sourced, Copying, Copied, ToAll, AllTouched};

use crate::places::exchange;
use crate::words::{
    copied, edge_next, from, head, place, set_listed, set_touched, source, to, touched,
};
use dfa::words::at;

// The state p is touched: how many classes then have touched members, of which k had some before.
fn touch(words: &mut [u32], n: usize, g: usize, p: usize, k: usize) -> usize
    requires { ToTouch n g p k words.old }
    ensures { (G : List ℕ) (s : ℕ) (own : ℕ → ℕ) (count : ℕ)
        → Touching G n g s own count words.old k → Into (δ G n) own s p
        → Touches G n g s own count p words.old result words.new }
{
    let d = at(words, p);
    let c = touched(words, n, g, d);
    let first = from(words, n, d) + c;
    let i = place(words, n, p);
    if i < first {
        return k;
    }
    exchange(words, n, first, i);
    set_touched(words, n, g, d, c + 1);
    if 0 < c {
        return k;
    }
    set_listed(words, n, g, k, d);
    k + 1
}

// The states with an edge to the state t are touched.
fn touch_sources(words: &mut [u32], n: usize, g: usize, t: usize, k: usize) -> usize
    requires { ToSources n g t k words.old }
    ensures { (G : List ℕ) (s : ℕ) (own : ℕ → ℕ) (count : ℕ)
        → Touching G n g s own count words.old k → own t ≡ s
        → Sourced G n g s own count t words.old result words.new }
{
    let mut m = k;
    let mut next = head(words, n, g, t);
    while 0 < next {
        let e = next - 1;
        let p = source(words, n, e);
        m = touch(words, n, g, p, m);
        next = edge_next(words, n, e);
    }
    m
}

// The states at the places from a to b are copied.
fn copy_members(words: &mut [u32], n: usize, g: usize, a: usize, b: usize)
    requires { Copying n g a b words.old }
    ensures { Copied n g a b words.old words.new }
{
    words.copy_within(n + a..n + b, g + 3 * n);
}

// The states that go into the class s are touched: how many classes have touched members.
pub fn touch_all(words: &mut [u32], n: usize, g: usize, s: usize) -> usize
    requires { ToAll n g s words.old }
    ensures { (G : List ℕ) (own : ℕ → ℕ) (count : ℕ)
        → Touching G n g s own count words.old 0 → s < count
        → AllTouched G n g s own count words.old result words.new }
{
    let a = from(words, n, s);
    let b = to(words, n, s);
    copy_members(words, n, g, a, b);
    let mut k = 0;
    for j in 0..b - a {
        let t = copied(words, n, g, j);
        k = touch_sources(words, n, g, t, k);
    }
    k
}
