// The automaton in words: state by state its silent word, its first edge, and its edges in the order of their letters.
ghost use Rattle.std.specs.Prelude.{◌≡◌, ◌≤◌, length};
ghost use Rattle.states_path.specs.States.{spots_of};
ghost use Rattle.states_path.specs.Path.{rise_all};
ghost use Rattle.states_path.specs.Levels.{frames_of, Sound};
ghost use Rattle.states_path.specs.Kept.{Arrived};
ghost use Rattle.states_words.specs.inner.Rows.{past, with_row, closed_of};
ghost use Rattle.states_words.specs.inner.Moves.{silent_of, row_of, edges_after, filled_of};
ghost use Rattle.states_step.specs.walk.Shows.{TermRows};

use crate::hear::hear;
use crate::letters::{letter_of, wait_of};
use crate::rows::{EDGES, put, write_edge, write_head};
use language::Numbers;
use states_path::exits::{dead, lead, reach};
use states_path::levels::PATH_WORDS;
use states_path::path::go_to;
use states_path::whole::spots_of;
use states_path::{Site, Stop};
use states_positions::Out;
use states_positions::row::{mul_add, sum};
use term_expand::expand::TERM_WORDS;

// The silent word of a state that does `o` inside c levels: 0 where it makes or takes a move, else 1 more than the
// state to which it goes.
fn silent_at(n: Numbers, s: Site, p: &[u32; PATH_WORDS], c: usize, o: Out) -> usize
    requires { Sound p.now c }
    ensures { result ≡ silent_of s (rise_all n (frames_of p.now c) o) }
{
    match o {
        Out::Go { .. } | Out::Exit { .. } => sum(reach(n, s, p, c, o), 1),
        Out::Say { .. } | Out::Hear { .. } => 0,
        Out::Stuck => sum(dead(s.n), 1),
    }
}

// The state k of the sheet, at which a path has arrived, its edges from edge e on.
fn write_row(
    t: &[u16; TERM_WORDS],
    n: Numbers,
    s: Site,
    words: &mut [u32],
    p: &[u32; PATH_WORDS],
    at: Stop,
    k: usize,
    e: usize,
) -> usize
    requires term_rows { TermRows t.now }
    requires arrived { Arrived t.now s.root p.now at.levels k at.out }
    ensures returned { result ≡ past e (row_of t.now n s k).edges }
    ensures written { words.new
        ≡ with_row words.old s.n s.o k e (row_of t.now n s k) }
{
    let c = at.levels;
    let o = at.out;
    write_head(words, s.n, sum(s.o, k), e, silent_at(n, s, p, c, o));
    match o {
        Out::Go { .. } | Out::Exit { .. } | Out::Stuck => e,
        Out::Say { said, next } => {
            write_edge(
                words,
                s.n,
                e,
                letter_of(n, said),
                lead(s.o, p, c, next, 0, 0),
            );
            sum(e, 1)
        }
        Out::Hear {
            at: of,
            kind,
            value,
            count,
        } => {
            let wait = wait_of(t, k, of, kind, value, count);
            hear(t, n, s, words, p, c, wait, e)
        }
    }
}

// The automaton of a sheet: the states from s.o on, the end last, their edges from edge e on. Gives the edge after
// them. The path is kept in words that are lent, whatever they hold.
pub fn fill(
    t: &[u16; TERM_WORDS],
    n: Numbers,
    s: Site,
    words: &mut [u32],
    p: &mut [u32; PATH_WORDS],
    e: usize,
) -> usize
    requires term_rows { TermRows t.now }
    requires room { (spots_of t.now s.root ≤ 65536) × (length p.old ≡ 79885) }
    ensures returned { result ≡ edges_after t.now n s e }
    ensures written { words.new ≡ filled_of t.now n s words.old e }
    ensures lent { length p.new ≡ 79885 }
{
    let root = s.root;
    let all = spots_of(t, root);
    let mut c = 0;
    let mut next = e;
    for k in 0..all {
        let at = go_to(t, root, p, c, k);
        next = write_row(t, n, s, words, p, at, k, next);
        c = at.levels;
    }
    write_head(words, s.n, sum(s.o, all), next, 0);
    next
}

// The dead state, n - 1, and the end of the edges.
#[tactic(auto, unfolding(crate::specs::inner::Rows::closed_of))]
pub fn close(words: &mut [u32], n: usize, e: usize)
    ensures { words.new ≡ closed_of words.old n e }
{
    write_head(words, n, dead(n), e, 0);
    put(words, mul_add(EDGES, n, 0), e);
}
