// A play's records walked through an automaton.
ghost use Rattle.std.specs.Prelude.{◌≡◌, List, ℕ, ◌*◌, length};
ghost use Rattle.dfa.specs.Graph.{Graph, rest};
ghost use Rattle.play_records.specs.Records.{moves, parse};
ghost use Rattle.play_words.specs.Walk.{AtLeast, Marked, Reached};

use dfa::graph::next_state;
use dfa_live::is_marked;
use play_records::play::{first_letter, width_of};
use sheet_records::read::get_or;

// How many moves begin a complete play, and the state after the last move.
#[derive(Drop)]
pub struct Reach {
    pub count: usize,
    pub last: usize,
}

// The greatest number of moves, of `total`, with which a complete play begins: the last after which the state is
// marked.
pub fn longest(words: &[u32], n: usize, play: &[u8], total: usize) -> Reach
    requires { Graph (rest (5 * n) words.now) n × AtLeast play.now total }
    ensures { (f : ℕ) (T : Marked n f words.now) (rs : List (List ℕ))
        → parse 0 play.now ≡ moves rs → length rs ≡ total → Reached T.automaton n f rs result }
{
    let mut p = 0;
    let mut at = 0;
    let mut count = 0;
    for i in 0..total {
        p = next_state(words, n, p, first_letter(&play[at..]));
        at += width_of(get_or(play, at, 0) as usize);
        if is_marked(words, n, p) {
            count = i + 1;
        }
    }
    Reach { count, last: p }
}
