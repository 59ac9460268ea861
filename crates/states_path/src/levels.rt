// The words of a path: thirteen for each level.
ghost use Rattle.std.specs.Prelude.{◌≡◌, [], ◌∷◌, suc, ◌+◌, ◌<◌, ◌≤◌};
ghost use Rattle.language.specs.Choice.{pick};
ghost use Rattle.states_positions.specs.Row.{LONGS};
ghost use Rattle.states_path.specs.Path.{innermost_of, passes_of, up_of, block_in};
ghost use Rattle.states_path.specs.Levels.{field_of, frame_of, frames_of, Sound};
ghost use Rattle.states_path.specs.Levels.{set_all, level_words, with_level, Narrow};
ghost use Rattle.states_path.specs.Kept.{start_of};

use crate::Level;
use states_positions::Frame;
use states_positions::roles::{AS_IS, BLOCK};

// How many levels a path has at most: those of a term, and the whole.
pub(crate) const LEVELS: usize = 6145;
// The words of a level.
const FIELDS: usize = 13;

pub(crate) const PART: usize = 0;

pub(crate) const QUESTION: usize = 1;

pub(crate) const QUESTION_VALUE: usize = 2;

pub(crate) const BASE: usize = 3;

pub(crate) const END: usize = 4;

const OUTER: usize = 5;

pub(crate) const ROLE: usize = 6;

const OFFSET: usize = 7;

pub(crate) const A: usize = 8;

pub(crate) const B: usize = 9;

pub(crate) const C: usize = 10;

const D: usize = 11;

const UP: usize = 12;
// All words.
pub const PATH_WORDS: usize = 79885;

// Word j of level i.
#[tactic(auto, unfolding(crate::specs::Levels::field_of))]
pub(crate) fn field(p: &[u32; PATH_WORDS], i: usize, j: usize) -> usize
    requires { (i < 6145) × (j < 13) }
    ensures { result ≡ field_of p.now i j }
{
    let at = FIELDS * i + j;
    p[at] as usize
}

// The frame of level i.
#[tactic(auto, unfolding(crate::specs::Levels::frame_of))]
pub(crate) fn frame_at(p: &[u32; PATH_WORDS], i: usize) -> Frame
    requires { i < 6145 }
    ensures { result ≡ frame_of p.now i }
{
    let role = field(p, i, ROLE);
    let base = field(p, i, OFFSET);
    let a = field(p, i, A);
    let b = field(p, i, B);
    let c = field(p, i, C);
    let d = field(p, i, D);
    Frame {
        role,
        base,
        a,
        b,
        c,
        d,
    }
}

// Four words from i on.
#[tactic(auto, unfolding(crate::specs::Levels::set_all))]
fn put_four(p: &mut [u32; PATH_WORDS], i: usize, a: usize, b: usize, c: usize, d: usize)
    requires { (i + 4 ≤ 79885) × ((a < LONGS) × ((b < LONGS) × ((c < LONGS) × (d < LONGS)))) }
    ensures { p.new ≡ set_all p.old i (a ∷ b ∷ c ∷ d ∷ []) }
{
    p[i] = a as u32;
    p[i + 1] = b as u32;
    p[i + 2] = c as u32;
    p[i + 3] = d as u32;
}

// Level i becomes l.
pub(crate) fn put_level(p: &mut [u32; PATH_WORDS], i: usize, l: Level)
    requires { (i < 6145) × Narrow (level_words l) }
    ensures { p.new ≡ with_level p.old i l }
{
    let at = FIELDS * i;
    let f = l.f;
    put_four(p, at, l.part, l.kind, l.value, l.base);
    put_four(p, at + END, l.end, l.outer, f.role, f.base);
    put_four(p, at + A, f.a, f.b, f.c, f.d);
    p[at + UP] = l.up as u32;
}

// The first state of the innermost of c levels.
#[tactic(auto, unfolding(crate::specs::Kept::start_of, crate::specs::Levels::level_at))]
pub(crate) fn start_at(p: &[u32; PATH_WORDS], c: usize) -> usize
    requires { Sound p.now c }
    ensures { result ≡ start_of p.now c }
{
    if c == 0 {
        return 0;
    }
    field(p, c - 1, BASE)
}

// How many of c levels there are up to the innermost block's; 0 where there is none.
// A number and no Option, as in `up_at` and `block_at`: a path keeps it as a word, and 0 levels are the whole sheet.
pub(crate) fn innermost(p: &[u32; PATH_WORDS], c: usize) -> usize
    requires { Sound p.now c }
    ensures { result ≡ innermost_of (frames_of p.now c) }
{
    if c == 0 {
        return 0;
    }
    if field(p, c - 1, ROLE) == BLOCK {
        return c;
    }
    field(p, c - 1, OUTER)
}

// How many levels there are up to the innermost whose frame does not pass an exit on; 0 where all do.
pub(crate) fn up_at(p: &[u32; PATH_WORDS], c: usize) -> usize
    requires { Sound p.now c }
    ensures { result ≡ up_of (frames_of p.now c) }
{
    if c == 0 {
        return 0;
    }
    field(p, c - 1, UP)
}

// The same with a frame of this role inside them.
#[tactic(auto, unfolding(crate::specs::Path::passes_of))]
pub(crate) fn up_with(p: &[u32; PATH_WORDS], c: usize, role: usize) -> usize
    requires { Sound p.now c }
    ensures { result ≡ pick (passes_of role) (up_of (frames_of p.now c)) (suc c) }
{
    if role == AS_IS {
        return up_at(p, c);
    }
    if role == BLOCK {
        return up_at(p, c);
    }
    c + 1
}

// How many of c levels there are up to the innermost block whose new has the row `block - 1`; 0 where there is none. A
// block's body is copied for each value of its variable, so that few blocks enclose a part: they are looked at one by one.
pub(crate) fn block_at(p: &[u32; PATH_WORDS], c: usize, block: usize) -> usize
    requires { Sound p.now c }
    ensures { result ≡ block_in (frames_of p.now c) block }
{
    if block == 0 {
        return 0;
    }
    let mut m = innermost(p, c);
    while 0 < m {
        if field(p, m - 1, A) == block {
            return m;
        }
        m = field(p, m - 1, OUTER);
    }
    0
}
