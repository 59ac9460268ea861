// The classes that the state 0 leads to, numbered breadth first. Word n + c is 1 more than the number of class c, or 0;
// word 2 n + k is a state of the class with the number k.
ghost use Rattle.std.specs.Prelude.{List, ◌≡◌, ◌+◌, ◌-◌, ◌*◌, ◌<◌, ◌≤◌, ℕ, length};
ghost use Rattle.dfa_numbering.specs.inner.Counting.{Noted, Counting, ToMeet};
ghost use Rattle.dfa_classes.specs.Places.{class_at, number_at, state_at};
ghost use Rattle.dfa_numbering.specs.Positions.{Countable, NumberedIn};

use dfa::words::{at, put};
use dfa_classes::links::zero;
use dfa_classes::words::{edge_target, first_edge};

// The class of the state t has the number k, where it is not the dead one and has none yet: the next number then.
fn note(words: &mut [u32], n: usize, dead: usize, t: usize, k: usize) -> usize
    requires { (n ≤ 8192) × ((t < n) × ((k ≤ n) × ((class_at words.old t < n) × ((5 * n ≤ length words.old)
        × (number_at n words.old (class_at words.old t) ≡ 0 → k < n))))) }
    ensures { Noted n dead t k words.old result words.new }
{
    let c = at(words, t);
    if c == dead {
        return k;
    }
    if 0 < at(words, n + c) {
        return k;
    }
    put(words, n + c, k + 1);
    put(words, 2 * n + k, t);
    k + 1
}

// The classes that the edges of the state p lead to are numbered, p a state of the class with the next number whose edges
// are not done: the next number then.
fn meet(words: &mut [u32], n: usize, dead: usize, p: usize, tail: usize) -> usize
    requires { ToMeet n dead p tail words.old }
    ensures { (G : List ℕ) (g : ℕ) (own : ℕ → ℕ) (head : ℕ) → Counting G n g own words.old head 0 tail
        → head < tail → p ≡ state_at n words.old head → dead ≡ own (n - 1)
        → Counting G n g own words.new (head + 1) 0 result
        × (length words.new ≡ length words.old) }
{
    let end = first_edge(words, n, p + 1);
    let mut k = tail;
    for e in first_edge(words, n, p)..end {
        let t = edge_target(words, n, e);
        k = note(words, n, dead, t, k);
    }
    k
}

// The classes that the state 0 leads to are numbered, but for the dead one: how many there are.
pub fn number_states(words: &mut [u32], n: usize) -> usize
    requires { (G : List ℕ) × ((g : ℕ) × ((own : ℕ → ℕ) × Countable G n g own words.old)) }
    ensures { (G : List ℕ) (g : ℕ) (own : ℕ → ℕ) → Countable G n g own words.old
        → NumberedIn G n g own result words.new }
{
    let dead = at(words, n - 1);
    zero(words, n, n);
    let mut tail = note(words, n, dead, 0, 0);
    let mut head = 0;
    // A while: the queue grows as it is read.
    while head < tail {
        let p = at(words, 2 * n + head);
        tail = meet(words, n, dead, p, tail);
        head += 1;
    }
    tail
}
