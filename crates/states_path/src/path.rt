// From the path to a state to the path to the next: levels that end are left, and parts are entered down to the one
// where the state is at hand.
ghost use Rattle.std.specs.Prelude.{◌≡◌, ◌+◌, ◌<◌, ◌≤◌};
ghost use Rattle.states_names.specs.Name.{no_move};
ghost use Rattle.states_step.specs.walk.Down.{in_private};
ghost use Rattle.states_path.specs.Path.{store_of};
ghost use Rattle.states_path.specs.Levels.{frames_of, Sound};
ghost use Rattle.states_path.specs.Kept.{spot_in, start_of, stop_of, until_of, child_of, KeptPath, Covers};
ghost use Rattle.states_path.specs.Kept.{Arrived};
ghost use Rattle.states_positions.specs.Row.{Long};
ghost use Rattle.states_step.specs.walk.Shows.{TermRows};

use crate::levels::{
    BASE, C, END, LEVELS, PART, PATH_WORDS, QUESTION, QUESTION_VALUE, block_at, field, innermost,
    put_level, start_at, up_with,
};
use crate::whole::{after_of, sheet_spot};
use crate::{Level, Stop};
use sheet_rows::kind::PRIVATE;
use sheet_rows::row::{DETAIL, KIND, VALUES, WEIGHT};
use states_positions::moves::{OK, READ, VALUE, WRITE};
use states_positions::row::{cell, sum};
use states_positions::{Frame, Out, Spot};
use states_step::down::down;
use term_expand::expand::TERM_WORDS;

// The value of the private variable of the new at a row, inside c levels.
fn value_at(p: &[u32; PATH_WORDS], c: usize, row: usize) -> usize
    requires { Sound p.now c × (row < 65536) }
    ensures { result ≡ store_of (frames_of p.now c) row }
{
    let m = block_at(p, c, row + 1);
    if m == 0 {
        return 0;
    }
    field(p, m - 1, C)
}

// Position k of a private variable inside c levels: its own step, then the exit.
#[tactic(auto, unfolding(states_step::specs::walk::Down::in_private))]
fn private_at(
    t: &[u16; TERM_WORDS],
    p: &[u32; PATH_WORDS],
    c: usize,
    at: usize,
    q: usize,
    x: usize,
    k: usize,
) -> Out
    requires term_rows { TermRows t.now }
    requires sound { Sound p.now c }
    ensures { result ≡ in_private t.now at q x k (store_of (frames_of p.now c)) }
{
    let row = cell(t, at, DETAIL);
    if k == 0 {
        return Out::Go {
            next: 1,
            block: 0,
            set: 0,
        };
    }
    if q == READ {
        return Out::Exit {
            kind: VALUE,
            value: value_at(p, c, row),
            block: 0,
            set: 0,
        };
    }
    if q == WRITE {
        if x < cell(t, at, VALUES) {
            return Out::Exit {
                kind: OK,
                value: 0,
                block: sum(row, 1),
                set: x,
            };
        }
    }
    Out::Stuck
}

// Where the state k is in the innermost of c levels.
fn spot_at(t: &[u16; TERM_WORDS], root: usize, p: &[u32; PATH_WORDS], c: usize, k: usize) -> Spot
    requires term_rows { TermRows t.now }
    requires kept_path { KeptPath t.now root p.now c k }
    ensures { result ≡ spot_in t.now root p.now c k no_move }
{
    if c == 0 {
        return sheet_spot(t, root, k);
    }
    let i = c - 1;
    let part = field(p, i, PART);
    let kind = field(p, i, QUESTION);
    let value = field(p, i, QUESTION_VALUE);
    let inner = k - field(p, i, BASE);
    if cell(t, part, KIND) == PRIVATE {
        return Spot::Here {
            out: private_at(t, p, c, part, kind, value, inner),
        };
    }
    down(t, part, kind, value, inner)
}

// The end of the states of the innermost of c levels.
#[tactic(auto, unfolding(crate::specs::Kept::stop_of, crate::specs::Levels::level_at))]
fn stop_at(t: &[u16; TERM_WORDS], root: usize, p: &[u32; PATH_WORDS], c: usize) -> usize
    requires long { Long t.now }
    requires sound { Sound p.now c }
    ensures { result ≡ stop_of t.now root p.now c }
{
    if c == 0 {
        return after_of(t, root);
    }
    field(p, c - 1, END)
}

// The end of a part's states: past k, and within the whole's.
#[tactic(auto, unfolding(crate::specs::Kept::least_of, crate::specs::Kept::until_of))]
fn until(k: usize, past: usize, end: usize) -> usize
    requires { k < 65536 }
    ensures { result ≡ until_of k past end }
{
    if past <= k {
        return (k + 1).min(end);
    }
    past.min(end)
}

// The level of a part of the innermost of c levels.
fn child(
    t: &[u16; TERM_WORDS],
    root: usize,
    p: &[u32; PATH_WORDS],
    c: usize,
    k: usize,
    part: usize,
    kind: usize,
    value: usize,
    f: Frame,
) -> Level
    requires term_rows { TermRows t.now }
    requires sound { Sound p.now c × ((k < 65536) × (start_of p.now c + f.base ≤ k)) }
    ensures { result ≡ child_of t.now root p.now c k part kind value f }
{
    let base = start_at(p, c) + f.base;
    let end = until(k, base + cell(t, part, WEIGHT), stop_at(t, root, p, c));
    let outer = innermost(p, c);
    let up = up_with(p, c, f.role);
    Level {
        part,
        kind,
        value,
        base,
        end,
        outer,
        up,
        f,
    }
}

// Without the levels whose states are before k.
fn leave(p: &[u32; PATH_WORDS], c: usize, k: usize) -> usize
    requires { Sound p.now c }
    ensures { (result ≤ c) × Covers p.now result k }
{
    for i in (0..c).rev() {
        if k < field(p, i, END) {
            return i + 1;
        }
    }
    0
}

// Down from the innermost of c levels to the part where the state k is at hand.
fn enter(t: &[u16; TERM_WORDS], root: usize, p: &mut [u32; PATH_WORDS], c: usize, k: usize) -> Stop
    requires term_rows { TermRows t.now }
    requires kept_path { KeptPath t.now root p.old c k × (Covers p.old c k × (k < 65536)) }
    ensures { Arrived t.now root p.new result.levels k result.out }
{
    for at in c..LEVELS {
        let d = spot_at(t, root, p, at, k);
        match d {
            Spot::Here { out } => {
                return Stop { levels: at, out };
            }
            Spot::Inside {
                part,
                kind,
                value,
                k: _,
                f,
            } => {
                let l = child(t, root, p, at, k, part, kind, value, f);
                put_level(p, at, l);
            }
        }
    }
    Stop {
        levels: LEVELS,
        out: Out::Stuck,
    }
}

// From a path of c levels to one of a state before k to that of the state k.
pub fn go_to(
    t: &[u16; TERM_WORDS],
    root: usize,
    p: &mut [u32; PATH_WORDS],
    c: usize,
    k: usize,
) -> Stop
    requires term_rows { TermRows t.now }
    requires kept_path { KeptPath t.now root p.old c k × (k < 65536) }
    ensures { Arrived t.now root p.new result.levels k result.out }
{
    let left = leave(p, c, k);
    enter(t, root, p, left, k)
}
