// Classes split by the letters that lead into one class.
ghost use Rattle.std.specs.Prelude.{List, ◌<◌, ◌≤◌, ◌+◌, ◌*◌, ℕ, length};
ghost use Rattle.dfa_splitting.specs.inner.Grouping.{ToGroup, Grouped};
ghost use Rattle.dfa_splitting.specs.inner.Signs.{ToSign, Signable, SignedTo, Signed};
ghost use Rattle.dfa_splitting.specs.inner.Splitting.{Carved, ToSplit, Splitting, SplitOne};
ghost use Rattle.dfa_splitting.specs.inner.Refining.{ToSplitAll, Touched, SignedAll, SplitAll};
ghost use Rattle.dfa_classes.specs.Places.{touched_at};

use crate::sign::{alike, sign};
use dfa::words::put;
use dfa_classes::places::exchange;
use dfa_classes::words::{
    copied, from, listed, member, set_from, set_to, set_touched, to, touched,
};

// The states at the places from `low` to `till` get their signs.
fn sign_places(words: &mut [u32], n: usize, g: usize, s: usize, low: usize, till: usize)
    requires { ToSign n g low till words.old }
    ensures { (G : List ℕ) (cls : ℕ → ℕ) → Signable G n g cls words.old
        → SignedTo G n g s cls low till words.old words.new }
{
    for i in low..till {
        let p = member(words, n, i);
        let v = sign(words, n, s, p);
        put(words, g + 3 * n + p, v);
    }
}

// The touched members of the m classes that are listed get their signs.
fn sign_all(words: &mut [u32], n: usize, g: usize, s: usize, m: usize)
    requires { (count : ℕ) × ToSplitAll n g s m count words.old }
    ensures { (G : List ℕ) (cls : ℕ → ℕ) (count : ℕ) → Touched G n g s cls count m words.old
        → SignedAll G n g s cls count m words.old words.new }
{
    for x in 0..m {
        let d = listed(words, n, g, x);
        let start = from(words, n, d);
        let till = start + touched(words, n, g, d);
        sign_places(words, n, g, s, start, till);
    }
}

// Of the states at the places from `low` to `till`, which have their signs, those that go into the class s by the letters
// of the first are brought to the front: the end of their places.
fn group(words: &mut [u32], n: usize, g: usize, s: usize, low: usize, till: usize) -> usize
    requires { ToGroup n g s low till words.old }
    ensures { (G : List ℕ) (own : ℕ → ℕ) (count c : ℕ)
        → Grouped G n g s own count c low till words.old result words.new }
{
    let first = member(words, n, low);
    let v = copied(words, n, g, first);
    let mut end = low + 1;
    for i in low + 1..till {
        let p = member(words, n, i);
        if copied(words, n, g, p) == v && alike(words, n, s, v, first, p) {
            exchange(words, n, end, i);
            end += 1;
        }
    }
    end
}

// The places of class d, from `low` to `end`, are cut at `mid`, and the new class k has one part: the smaller one, but the
// class of the dead state, 0, keeps the rear. The class that has the rear.
fn carve(
    words: &mut [u32],
    n: usize,
    d: usize,
    k: usize,
    low: usize,
    mid: usize,
    end: usize,
) -> usize
    requires { (d < n) × ((k < n) × ((low ≤ mid) × ((mid ≤ end) × ((end ≤ n) × ((n ≤ 8192)
        × (5 * n ≤ length words.old)))))) }
    ensures { Carved n d k low mid end words.old result words.new }
{
    if d == 0 {
        set_from(words, n, k, low);
        set_to(words, n, k, mid);
        set_from(words, n, d, mid);
        return d;
    }
    if mid - low <= end - mid {
        set_from(words, n, k, low);
        set_to(words, n, k, mid);
        set_from(words, n, d, mid);
        return d;
    }
    set_from(words, n, k, mid);
    set_to(words, n, k, end);
    set_to(words, n, d, mid);
    k
}

// The class d is split by the letters that lead into the class s; the new classes are numbered from k on: their end.
fn split(words: &mut [u32], n: usize, g: usize, s: usize, d: usize, k: usize) -> usize
    requires { ToSplit n g s d k words.old }
    ensures { (G : List ℕ) (cls : ℕ → ℕ) (count : ℕ) (cur : ℕ → ℕ)
        → Splitting G n g s cls count words.old cur k → Signed G n g s cls words.old → d < k
        → 0 < touched_at n g words.old d
        → SplitOne G n g s cls count d words.old k result words.new }
{
    let start = from(words, n, d);
    let end = to(words, n, d);
    let till = start + touched(words, n, g, d);
    set_touched(words, n, g, d, 0);
    let mut low = start;
    let mut c = d;
    let mut m = k;
    while low < till {
        let mid = group(words, n, g, s, low, till);
        if mid < end {
            c = carve(words, n, c, m, low, mid, end);
            m += 1;
        }
        low = mid;
    }
    m
}

// The m classes that are listed are split; the new classes are numbered from `count` on: their end.
pub fn split_all(words: &mut [u32], n: usize, g: usize, s: usize, m: usize, count: usize) -> usize
    requires { ToSplitAll n g s m count words.old }
    ensures { (G : List ℕ) (cls : ℕ → ℕ) → Touched G n g s cls count m words.old
        → SplitAll G n g s cls count words.old result words.new }
{
    sign_all(words, n, g, s, m);
    let mut k = count;
    for x in 0..m {
        let d = listed(words, n, g, x);
        k = split(words, n, g, s, d, k);
    }
    k
}
