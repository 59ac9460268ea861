// The services with their requirements tested.
ghost use Rattle.std.specs.Prelude.{◌≡◌, true, ◌*◌};
ghost use Rattle.test_dfa.specs.Answer.{Answered};
ghost use Rattle.test_dfa.specs.Lives.{Lives};
ghost use Rattle.dfa.specs.Graph.{rest};
ghost use Rattle.dfa_silent.specs.Silent.{Settling};

use crate::tested::{live_ok, silent_ok, words_ok};
use dfa_difference::Task;
use dfa_difference::search::first_difference;
use dfa_live::{is_marked, mark_live};
use dfa_search::word::spell;
use dfa_silent::settle;

// The requirements do not hold; no word tells the two states apart; the first that does has so many letters.
#[derive(Drop)]
pub(crate) enum Answer {
    Invalid,
    Equivalent,
    Distinguished(usize),
}

// The first word that exactly one of the two states accepts, its first letter first from word 5 n on.
pub(crate) fn compare_checked(words: &mut [u32], t: Task) -> Answer
    ensures { Answered (rest (5 * t.n) words.old) t (rest (5 * t.n) words.new) result }
{
    let n = t.n;
    let p = t.p;
    let q = t.q;
    if !words_ok(words, n) {
        return Answer::Invalid;
    }
    if n <= p {
        return Answer::Invalid;
    }
    if n <= q {
        return Answer::Invalid;
    }
    match first_difference(words, t) {
        None => Answer::Equivalent,
        Some(k) => {
            let len = spell(words, n, k);
            Answer::Distinguished(len)
        }
    }
}

// Every edge is led to where its target settles; false where the requirements do not hold.
pub(crate) fn settle_checked(words: &mut [u32], n: usize) -> bool
    ensures { result ≡ true
        → Settling n words.old (rest (5 * n) words.old) (rest (5 * n) words.new) }
{
    if !words_ok(words, n) {
        return false;
    }
    if words.len() < n {
        return false;
    }
    if !silent_ok(words, n) {
        return false;
    }
    settle(words, n);
    true
}

// The requirements do not hold; the state accepts some word; it accepts none.
#[derive(Drop)]
pub(crate) enum Life {
    Invalid,
    Live,
    Dead,
}

// Whether the state p accepts some word, where f alone accepts.
pub(crate) fn live_checked(words: &mut [u32], n: usize, p: usize, f: usize) -> Life
    ensures { Lives (rest (5 * n) words.old) n f p result }
{
    if !live_ok(words, n, f) {
        return Life::Invalid;
    }
    if n <= p {
        return Life::Invalid;
    }
    mark_live(words, n, f);
    if is_marked(words, n, p) {
        return Life::Live;
    }
    Life::Dead
}
