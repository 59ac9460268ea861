// Where a step of the innermost part of a path leads in the whole sheet.
ghost use Rattle.std.specs.Prelude.{◌≡◌, ℕ, ◌+◌, ◌-◌, ◌*◌, ◌≤◌, ◌<◌, eqb};
ghost use Rattle.states_positions.specs.declared.Out.TheVariants.{Go, Exit};
ghost use Rattle.language.specs.declared.Numbers.{Numbers};
ghost use Rattle.language.specs.Choice.{pick};
ghost use Rattle.states_positions.specs.MoveKind.{VALUE};
ghost use Rattle.states_path.specs.declared.Site.{Site};
ghost use Rattle.states_path.specs.Path.{rise_all, block_in, left_of};
ghost use Rattle.states_path.specs.Levels.{frames_of, Sound};
ghost use Rattle.states_path.specs.declared.exits.Ways.TheVariants.{Copies, Either};
ghost use Rattle.states_path.specs.States.{target_of};
ghost use Rattle.states_path.specs.Ways.{copies_of, other_than, either_of};

use crate::Site;
use crate::levels::{A, B, C, PATH_WORDS, ROLE, block_at, field, frame_at, start_at, up_at};
use language::Numbers;
use sheet_records::read::SHORTS;
use states_positions::moves::VALUE;
use states_positions::roles::{RIGHT, SELECT};
use states_positions::row::{mul_add, sum};
use states_positions::{Out, Silent};
use states_rise::up::{exits, goes};

// The operator equal, by its number.
const EQUAL: usize = language::operator::EQUAL as usize;

// A number below this is added to the first state of a part without becoming too large.
const FAR: usize = 2147418112;

// So many values or more are led one by one: a copy of fewer is reached by a number that is not too large.
const MANY: usize = 32767;

// The dead state of n.
pub fn dead(n: usize) -> usize
    ensures { result ≡ n - 1 }
{
    n.saturating_sub(1)
}

// A silent step inside c levels, seen in the whole sheet, level by level.
fn climb(p: &[u32; PATH_WORDS], c: usize, g: Silent) -> Silent
    requires { Sound p.now c }
    ensures { (N : Numbers) → Go result.next result.block result.set
        ≡ rise_all N (frames_of p.now c) (Go g.next g.block g.set) }
{
    let mut out = g;
    for i in (0..c).rev() {
        out = goes(frame_at(p, i), out);
    }
    out
}

// Where a silent step inside c levels leads, level by level, in a sheet whose states begin at `first`. Nothing else of the
// site matters to a silent step, and a number is handed on more cheaply than the site.
#[tactic(auto, unfolding(crate::specs::States::target_of))]
fn far(
    first: usize,
    p: &[u32; PATH_WORDS],
    c: usize,
    next: usize,
    block: usize,
    set: usize,
) -> usize
    requires { Sound p.now c }
    ensures { (N : Numbers) (s : Site) → s.o ≡ first → result
        ≡ target_of s (rise_all N (frames_of p.now c) (Go next block set)) }
{
    let o = climb(p, c, Silent { next, block, set });
    sum(first, o.next)
}

// Where it leads that writes the variable of the block at the level m - 1: its state is counted from the first state of
// the block's copy of the value written; level by level where the number may be too large.
fn moved(
    first: usize,
    p: &[u32; PATH_WORDS],
    c: usize,
    next: usize,
    block: usize,
    set: usize,
    m: usize,
) -> usize
    requires { Sound p.now c × ((next < 2147418112) × ((m ≡ block_in (frames_of p.now c) block) × (0 < m))) }
    ensures { (N : Numbers) (s : Site) → s.o ≡ first → result
        ≡ target_of s (rise_all N (frames_of p.now c) (Go next block set)) }
{
    let copy = mul_add(
        set,
        field(p, m - 1, B),
        start_at(p, c) + next - start_at(p, m),
    );
    if FAR <= copy {
        return far(first, p, c, next, block, set);
    }
    sum(first, start_at(p, m - 1) + copy)
}

// Where a silent step inside c levels leads that writes the variable of the block at the level m - 1, or no block's where m
// is 0: its state is counted from the first state of the innermost, or of the block's copy of the value written.
fn lead_at(
    first: usize,
    p: &[u32; PATH_WORDS],
    c: usize,
    next: usize,
    block: usize,
    set: usize,
    m: usize,
) -> usize
    requires { Sound p.now c × (m ≡ block_in (frames_of p.now c) block) }
    ensures { (N : Numbers) (s : Site) → s.o ≡ first → result
        ≡ target_of s (rise_all N (frames_of p.now c) (Go next block set)) }
{
    if FAR <= next {
        return far(first, p, c, next, block, set);
    }
    if m == 0 {
        return sum(first, start_at(p, c) + next);
    }
    moved(first, p, c, next, block, set, m)
}

// Where a silent step inside c levels leads.
pub fn lead(
    first: usize,
    p: &[u32; PATH_WORDS],
    c: usize,
    next: usize,
    block: usize,
    set: usize,
) -> usize
    requires { Sound p.now c }
    ensures { (N : Numbers) (s : Site) → s.o ≡ first → result
        ≡ target_of s (rise_all N (frames_of p.now c) (Go next block set)) }
{
    lead_at(first, p, c, next, block, set, block_at(p, c, block))
}

// Where a silent step inside i levels leads that follows an exit: what it writes is forgotten where the block of the
// variable, at the level own - 1, is left. Most exits write nothing, and their steps are led from here.
fn led(
    first: usize,
    p: &[u32; PATH_WORDS],
    i: usize,
    next: usize,
    own: usize,
    block: usize,
    set: usize,
) -> usize
    requires { Sound p.now i × (own ≤ i → own ≡ block_in (frames_of p.now i) block) }
    ensures { (N : Numbers) (s : Site) → s.o ≡ first → result
        ≡ target_of s (rise_all N (frames_of p.now i) (Go next (left_of i own block) (left_of i own set))) }
{
    if i < own {
        return lead(first, p, i, next, 0, 0);
    }
    if own == 0 {
        if next < FAR {
            return sum(first, start_at(p, i) + next);
        }
    }
    lead_at(first, p, i, next, block, set, own)
}

// Where an exit of what is inside c levels leads: a frame that does not pass it on hands on what is written as it is.
pub fn exit(
    n: Numbers,
    s: Site,
    p: &[u32; PATH_WORDS],
    c: usize,
    kind: usize,
    value: usize,
    block: usize,
    set: usize,
) -> usize
    requires { Sound p.now c }
    ensures { result ≡ target_of s (rise_all n (frames_of p.now c) (Exit kind value block set)) }
{
    let own = block_at(p, c, block);
    let mut up = up_at(p, c);
    let mut answer = kind;
    let mut result = value;
    while 0 < up {
        let i = up - 1;
        let o = exits(n, frame_at(p, i), answer, result, 0, 0);
        match o {
            Out::Go {
                next,
                block: _,
                set: _,
            } => return led(s.o, p, i, next, own, block, set),
            Out::Exit {
                kind: k,
                value: x,
                block: _,
                set: _,
            } => {
                answer = k;
                result = x;
                up = up_at(p, i);
            }
            Out::Say { said: _, next: _ } => return dead(s.n),
            Out::Hear {
                at: _,
                kind: _,
                value: _,
                count: _,
            } => return dead(s.n),
            Out::Stuck => return dead(s.n),
        }
    }
    dead(s.n)
}

// Where a step inside c levels leads.
pub fn reach(n: Numbers, s: Site, p: &[u32; PATH_WORDS], c: usize, o: Out) -> usize
    requires { Sound p.now c }
    ensures { result ≡ target_of s (rise_all n (frames_of p.now c) o) }
{
    match o {
        Out::Go { next, block, set } => lead(s.o, p, c, next, block, set),
        Out::Exit {
            kind,
            value,
            block,
            set,
        } => exit(n, s, p, c, kind, value, block, set),
        Out::Say { said: _, next: _ } => dead(s.n),
        Out::Hear {
            at: _,
            kind: _,
            value: _,
            count: _,
        } => dead(s.n),
        Out::Stuck => dead(s.n),
    }
}

// How the values below a limit lead on that what is inside some levels exits with, as far as one frame tells it for all
// of them: the value v to the state to + v * stride; one value to the state `yes` and all others to `no`; or each as
// `exit` says.
#[derive(Drop)]
pub enum Ways {
    Copies { to: usize, stride: usize },
    Either { value: usize, yes: usize, no: usize },
    Each,
}

// The ways to the copies of a part, which are b states apart, the first of them a states after the state `start` of a
// sheet whose states begin at `first`; only where no number can be too large.
#[tactic(auto, unfolding(crate::specs::Ways::copies_of))]
fn copies(first: usize, start: usize, a: usize, b: usize) -> Ways
    requires { start < 65536 }
    ensures { result ≡ copies_of first start a b }
{
    if first < SHORTS {
        if a < SHORTS {
            if b < SHORTS {
                return Ways::Copies {
                    to: first + start + a,
                    stride: b,
                };
            }
        }
    }
    Ways::Each
}

// A value that is not v.
#[tactic(auto, unfolding(crate::specs::Ways::other_than))]
fn other_than(v: usize) -> usize
    ensures { result ≡ other_than v }
{
    usize::from(v == 0)
}

// The ways of the right operands of *equal* whose left operand is `left`: that one is like it, and no other is. Also
// where it is not-a-number, which is like nothing: then `yes` is where a falsehood leads.
#[tactic(auto, unfolding(crate::specs::Ways::either_of, crate::specs::Ways::value_to))]
fn either(n: Numbers, s: Site, p: &[u32; PATH_WORDS], c: usize, left: usize) -> Ways
    requires { Sound p.now c }
    ensures { result ≡ either_of n s (frames_of p.now c) left }
{
    if SHORTS <= left {
        return Ways::Each;
    }
    let yes = exit(n, s, p, c, VALUE, left, 0, 0);
    let no = exit(n, s, p, c, VALUE, other_than(left), 0, 0);
    Ways::Either {
        value: left,
        yes,
        no,
    }
}

// The ways of the values below a limit.
pub fn ways_of(n: Numbers, s: Site, p: &[u32; PATH_WORDS], c: usize, below: usize) -> Ways
    requires { Sound p.now c }
    ensures apart { (to stride v : ℕ) → result ≡ Copies to stride → v < below
        → to + v * stride ≡ target_of s (rise_all n (frames_of p.now c) (Exit VALUE v 0 0)) }
    ensures two { (value yes no v : ℕ) → result ≡ Either value yes no → v < below
        → pick (eqb v value) yes no ≡ target_of s (rise_all n (frames_of p.now c) (Exit VALUE v 0 0)) }
    ensures small { (to stride : ℕ) → result ≡ Copies to stride → (to < 4294967296) × (stride < 65536) }
{
    let up = up_at(p, c);
    if up == 0 {
        return Ways::Each;
    }
    if MANY <= below {
        return Ways::Each;
    }
    let i = up - 1;
    if field(p, i, C) < below {
        return Ways::Each;
    }
    let role = field(p, i, ROLE);
    if role == SELECT {
        return copies(s.o, start_at(p, i), field(p, i, A), field(p, i, B));
    }
    if role == RIGHT {
        if field(p, i, B) == EQUAL {
            return either(n, s, p, c, field(p, i, A));
        }
    }
    Ways::Each
}
