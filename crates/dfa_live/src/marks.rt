// The live states, found from the accepting state back along the lists of edges. Word k, below n, holds entry k of the
// queue beside the beginning of a list; word n + p is 1 where the state p is marked, else 0.
ghost use Rattle.std.specs.Prelude.{◌≡◌, ◌+◌, ◌*◌, ◌<◌, length};
ghost use Rattle.dfa_live.specs.Marks.{Marks};
ghost use Rattle.dfa.specs.Frame.{SameFrom};
ghost use Rattle.dfa_live.specs.inner.Marking.{noted, tail_after, Unmarked};

use crate::links::{NO_EDGE, STATES, link_place};
use dfa::words::{at, put};

// The mark of a live state.
pub(crate) const LIVE: usize = 1;

// The state p is marked and put at the end of the queue, where it is not marked yet: the end of the queue then.
fn note(words: &mut [u32], n: usize, tail: usize, p: usize) -> usize
    requires { (tail < length words.old) × ((n + p < length words.old) × (p < 16384)) }
    ensures { (result ≡ tail_after words.old n tail p)
        × (words.new ≡ noted words.old n tail p) }
{
    if at(words, n + p) == LIVE {
        return tail;
    }
    put(words, n + p, LIVE);
    let list = at(words, tail) / STATES;
    put(words, tail, list * STATES + p);
    tail + 1
}

// Every live state is marked, where f alone accepts. The first `head` entries of the queue are taken, and `next` is
// where the list of edges that lead to the last of them goes on.
pub(crate) fn mark(words: &mut [u32], n: usize, f: usize)
    requires { Unmarked n f words.old }
    ensures { (U : Unmarked n f words.old) → Marks U.graph n f words.new
        × SameFrom (2 * n) words.old words.new }
{
    let mut tail = note(words, n, 0, f);
    let end = at(words, 6 * n);
    let mut head = 0;
    let mut next = NO_EDGE;
    // A while: the queue grows as it is read, and a list of links is walked for each of its states.
    while head < tail + next {
        if next == NO_EDGE {
            let t = at(words, head) % STATES;
            next = at(words, t) / STATES;
            head += 1;
        } else {
            let v = at(words, link_place(n, end, next - 1));
            tail = note(words, n, tail, v % STATES);
            next = v / STATES;
        }
    }
}
