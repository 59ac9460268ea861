// Classes of states: each state has a parent, and a state that is its own represents its class.
ghost use Rattle.std.specs.Prelude.{◌≡◌, ℕ, ◌≤◌, ◌<◌, ◌^◌, length, get_or};
ghost use Rattle.dfa_search.specs.Classes.{Low, Sinks, Found, linked};

use dfa::words::{at, put};

// The representative of x, by path halving: every other state on the path gets its grandparent for its parent. Where
// the parent represents the class, nothing is stored.
pub fn find(work: &mut [u32], x: usize) -> usize
    requires { Sinks x work.old }
    ensures { (n : ℕ) → Low n work.old → x < n
        → Found n x result work.old work.new }
{
    let mut y = x;
    let mut p = at(work, y);
    while p != y {
        let g = at(work, p);
        if g == p {
            return p;
        }
        put(work, y, g);
        y = g;
        p = at(work, y);
    }
    y
}

// Two representatives are linked: the smaller is the parent.
pub fn link(work: &mut [u32], a: usize, b: usize)
    requires { (a < length work.old) × ((b < length work.old) × ((a < 2 ^ 32) × (b < 2 ^ 32))) }
    ensures { work.new ≡ linked work.old a b }
{
    if a < b {
        put(work, b, a);
    } else {
        put(work, a, b);
    }
}

// Every state is a class of its own.
pub fn singles(work: &mut [u32], n: usize)
    requires { (n ≤ 8193) × (n ≤ length work.old) }
    ensures { (x : ℕ) → x < n → get_or work.new x 0 ≡ x }
{
    for i in 0..n {
        put(work, i, i);
    }
}
