// The first difference: pairs of states in a queue, breadth first in the order of the letters.
ghost use Rattle.std.specs.Prelude.{◌≡◌, ℕ, ◌+◌, ◌*◌, ◌≤◌, ◌<◌, ◌^◌, length, take, List};
ghost use Rattle.std.specs.Bool.{beq};
ghost use Rattle.dfa.specs.Graph.{rest};
ghost use Rattle.dfa_difference.specs.Outcome.{Setting, Outcome};
ghost use Rattle.dfa.specs.Word.{accepting};
ghost use Rattle.dfa_search.specs.Classes.{Low};
ghost use Rattle.dfa_difference.specs.inner.Queue.{pushed, Visited, Grown};
ghost use Rattle.dfa_difference.specs.inner.State.{State, Half};
ghost use Rattle.dfa_difference.specs.inner.Level.{alike_at, Deep, Shallow, Leveled};

use crate::Task;
use dfa::step::{ends_of, step};
use dfa::words::{at, put};
use dfa_search::classes::{find, link, singles};
use dfa_search::{ENTRY, FROM, LETTER, SECOND};

// Entry k.
fn push(work: &mut [u32], n: usize, k: usize, p: usize, q: usize, from: usize, letter: usize)
    requires { (n + 4 * k + 4 ≤ length work.old)
        × ((p < 2 ^ 32) × ((q < 2 ^ 32) × ((from < 2 ^ 32) × (letter < 2 ^ 32)))) }
    ensures { work.new ≡ pushed work.old (n + 4 * k) p q from letter }
{
    let base = n + ENTRY * k;
    put(work, base, p);
    put(work, base + SECOND, q);
    put(work, base + FROM, from);
    put(work, base + LETTER, letter);
}

// The pair p, q, reached from an entry by a letter: where their classes differ they become one, and the pair an entry.
fn visit(
    work: &mut [u32],
    n: usize,
    tail: usize,
    from: usize,
    letter: usize,
    p: usize,
    q: usize,
) -> usize
    requires { Low n work.old × ((tail < n) × ((from < tail) × ((letter < 2 ^ 32) × ((p < n) × (q < n))))) }
    ensures { Visited n tail from letter p q result work.old work.new }
{
    let a = find(work, p);
    let b = find(work, q);
    if a == b {
        return tail;
    }
    link(work, a, b);
    push(work, n, tail, p, q, from, letter);
    tail + 1
}

// Every letter of the two states of entry head, in order.
fn expand(words: &mut [u32], t: Task, head: usize, tail: usize) -> usize
    requires { Setting (rest (5 * t.n) words.old) t
        × Half (rest (5 * t.n) words.old) t (take (5 * t.n) words.old) head tail 0 }
    ensures { State (rest (5 * t.n) words.old) t (take (5 * t.n) words.new) (head + 1) result
        × ((rest (5 * t.n) words.new ≡ rest (5 * t.n) words.old)
        × Grown t.n head tail result (take (5 * t.n) words.old) (take (5 * t.n) words.new)) }
{
    let size = t.n;
    let cut = 5 * size;
    let p = at(words, size + ENTRY * head);
    let q = at(words, size + ENTRY * head + SECOND);
    let e = ends_of(&words[cut..], p, q);
    let mut i = e.i;
    let ie = e.ie;
    let mut j = e.j;
    let je = e.je;
    let mut last = tail;
    while i + j < ie + je {
        let n = t.n;
        let g = 5 * n;
        let s = step(&words[g..], n, i, ie, j, je);
        i = s.i;
        j = s.j;
        let m = s.letter;
        let a = s.a;
        let b = s.b;
        last = visit(&mut words[..g], n, last, head, m, a, b);
    }
    last
}

// Whether x is an accepting state.
fn accepts(x: usize, f: usize, g: usize) -> bool
    ensures { result ≡ accepting f g x }
{
    if x == f {
        return true;
    }
    x == g
}

// Whether both states accept, or neither. Most pairs fail all four tests.
fn alike(x: usize, y: usize, f: usize, g: usize) -> bool
    ensures { result ≡ beq (accepting f g x) (accepting f g y) }
{
    if x == f {
        return accepts(y, f, g);
    }
    if y == f {
        return x == g;
    }
    if x == g {
        return y == g;
    }
    y != g
}

// Whether both states of entry k accept, or neither.
fn alike_at(words: &[u32], n: usize, k: usize, f: usize, g: usize) -> bool
    requires { (n ≤ 8193) × ((k < n) × (5 * n ≤ length words.now)) }
    ensures { result ≡ alike_at n words.now k f g }
{
    let x = at(words, n + ENTRY * k);
    let y = at(words, n + ENTRY * k + SECOND);
    alike(x, y, f, g)
}

// The entries of a level in order, from `from` on and before `end`, each expanded, until the states of one differ: that
// entry as the error. Where there is none, the number of entries that there are then.
fn expand_level(words: &mut [u32], t: Task, from: usize, end: usize) -> Result<usize, usize>
    requires { Setting (rest (5 * t.n) words.old) t
        × (State (rest (5 * t.n) words.old) t (take (5 * t.n) words.old) from end
        × Shallow t.n (take (5 * t.n) words.old) from end t.most) }
    ensures { Leveled (rest (5 * t.n) words.old) t from end (take (5 * t.n) words.old)
        (take (5 * t.n) words.new) result
        × (rest (5 * t.n) words.new ≡ rest (5 * t.n) words.old) }
{
    let mut tail = end;
    for head in from..end {
        if !alike_at(words, t.n, head, t.f, t.g) {
            return Err(head);
        }
        tail = expand(words, t, head, tail);
    }
    Ok(tail)
}

// The entries of the last level in order, none of them expanded, until the states of one differ.
fn test_level(words: &[u32], t: Task, from: usize, end: usize) -> Option<usize>
    requires { Setting (rest (5 * t.n) words.now) t
        × (State (rest (5 * t.n) words.now) t (take (5 * t.n) words.now) from end
        × Deep t.n (take (5 * t.n) words.now) from end t.most) }
    ensures { Outcome (rest (5 * t.n) words.now) t (take (5 * t.n) words.now) result }
{
    for head in from..end {
        if !alike_at(words, t.n, head, t.f, t.g) {
            return Some(head);
        }
    }
    None
}

// The levels in order, until the states of an entry differ, up to the level whose words have `most` letters, the last.
fn run(words: &mut [u32], t: Task) -> Option<usize>
    requires { Setting (rest (5 * t.n) words.old) t
        × State (rest (5 * t.n) words.old) t (take (5 * t.n) words.old) 0 1 }
    ensures { Outcome (rest (5 * t.n) words.old) t (take (5 * t.n) words.new) result
        × (rest (5 * t.n) words.new ≡ rest (5 * t.n) words.old) }
{
    let mut head = 0;
    let mut tail = 1;
    for _depth in 0..t.most {
        if head == tail {
            return None;
        }
        match expand_level(words, t, head, tail) {
            Err(k) => {
                return Some(k);
            }
            Ok(next) => {
                head = tail;
                tail = next;
            }
        }
    }
    test_level(words, t, head, tail)
}

// The classes are single but for p and q, and the queue has their entry.
fn prepare(work: &mut [u32], t: Task)
    requires { (5 * t.n ≤ length work.old)
        × ((t.n ≤ 8193) × ((t.p < t.n) × ((t.q < t.n) × (t.p ≡ t.q → ⊥)))) }
    ensures { (G : List ℕ) → Setting G t → State G t work.new 0 1 }
{
    let n = t.n;
    let p = t.p;
    let q = t.q;
    singles(work, n);
    link(work, p, q);
    push(work, n, 0, p, q, 0, 0);
}

// The first word, by length and then letters, that exactly one of p and q accepts, as an entry, if it has at most `most`
// letters; None where no word of at most so many tells the two apart.
pub fn first_difference(words: &mut [u32], t: Task) -> Option<usize>
    requires { Setting (rest (5 * t.n) words.old) t × (5 * t.n ≤ length words.old) }
    ensures { Outcome (rest (5 * t.n) words.old) t (take (5 * t.n) words.new) result
        × (rest (5 * t.n) words.new ≡ rest (5 * t.n) words.old) }
{
    let n = t.n;
    let p = t.p;
    let q = t.q;
    if p == q {
        return None;
    }
    let g = 5 * n;
    prepare(&mut words[..g], t);
    run(words, t)
}
