// The edges by the values with which a name answers, where one frame tells for all of them where they lead.
ghost use Rattle.std.specs.Prelude.{◌≡◌, ◌+◌, ◌*◌, ◌<◌, eqb};
ghost use Rattle.language.specs.Choice.{pick};
ghost use Rattle.language.specs.Number.{numbers};
ghost use Rattle.states_positions.specs.Row.{SHORTS, LONGS};
ghost use Rattle.states_words.specs.inner.Rows.{with_edges, past};
ghost use Rattle.states_words.specs.inner.Moves.{values_to};

use crate::letters::{code_at, rank_of};
use crate::rows::write_edge;
use language::Numbers;
use language_codes::number::numbers;
use states_positions::row::sum;

// The edges by the values below a limit that lead to the copies of a part: the value v to the state to + v * stride.
// The letter of a value is `place` and its rank.
pub(crate) fn answer_copies(
    n: Numbers,
    words: &mut [u32],
    states: usize,
    place: usize,
    below: usize,
    to: usize,
    stride: usize,
    e: usize,
) -> usize
    requires { (place < LONGS) × ((to < LONGS) × (stride < SHORTS)) }
    ensures returned { result ≡ past e (values_to n place below (λ v. to + v * stride) (numbers n)) }
    ensures written { words.new ≡ with_edges words.old states e
        (values_to n place below (λ v. to + v * stride) (numbers n)) }
{
    let all = numbers(n) as usize;
    let mut next = e;
    for r in 0..all {
        let v = code_at(n, r);
        if v < below {
            write_edge(words, states, next, place + rank_of(n, v), to + v * stride);
            next = sum(next, 1);
        }
    }
    next
}

// The state `yes` for one value, and `no` for all others.
fn either(v: usize, value: usize, yes: usize, no: usize) -> usize
    ensures { result ≡ pick (eqb v value) yes no }
{
    if v == value { yes } else { no }
}

// The same where one value leads to the state `yes` and all others to `no`.
pub(crate) fn answer_either(
    n: Numbers,
    words: &mut [u32],
    states: usize,
    place: usize,
    below: usize,
    value: usize,
    yes: usize,
    no: usize,
    e: usize,
) -> usize
    requires { place < LONGS }
    ensures returned { result ≡ past e (values_to n place below (λ v. pick (eqb v value) yes no) (numbers n)) }
    ensures written { words.new ≡ with_edges words.old states e
        (values_to n place below (λ v. pick (eqb v value) yes no) (numbers n)) }
{
    let all = numbers(n) as usize;
    let mut next = e;
    for r in 0..all {
        let v = code_at(n, r);
        if v < below {
            write_edge(
                words,
                states,
                next,
                place + rank_of(n, v),
                either(v, value, yes, no),
            );
            next = sum(next, 1);
        }
    }
    next
}
