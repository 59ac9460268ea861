// The name records before the term, and the term.
ghost use Rattle.std.specs.Prelude.{◌+◌, ◌-◌, ◌≤◌, ◌<◌, length};
ghost use Rattle.sheet_written.specs.Written.{Name};
ghost use Rattle.sheet_reader.specs.Reader.{names_of, name_of};
ghost use Rattle.sheet_reader.specs.table.Fill.{ReadsSheet, term_at};

use crate::heading::{judge_declare, judge_fresh, registered};
use crate::part::read_root;
use language::Numbers;
use sheet_records::edition::Edition;
use sheet_records::kind::{Shape, shape_of};
use sheet_records::refusal::{Reason, Refusal, refuse};
use sheet_records::standing::{RETIRED, declared_standing};

// What reading a sheet gives: the place of the term, its type and the place after it.
#[derive(Drop)]
pub struct Reading {
    pub root: usize,
    pub ty: u8,
    pub next: usize,
}

// Reads the term.
fn read_term(
    edition: Edition,
    s: &[u8],
    st: &[u32; 255],
    t: &mut [u16],
    n: Numbers,
    at: usize,
) -> Result<Reading, Refusal>
    requires { length s.now ≤ 4096 }
    ensures { ReadsSheet n (term_at edition n s.now st.now at) result
        t.old t.new }
{
    let term = read_root(edition, s, st, t, n, at)?;
    Ok(Reading {
        root: at,
        ty: term.ty as u8,
        next: term.next,
    })
}

// Reads name records, `left` of them still allowed, and the term.
#[cycle(names)]
pub(crate) fn read_names(
    edition: Edition,
    s: &[u8],
    st: &[u32; 255],
    t: &mut [u16],
    n: Numbers,
    left: u8,
    at: usize,
) -> Result<Reading, Refusal>
    requires { length s.now ≤ 4096 }
    ensures { ReadsSheet n (names_of edition left n s.now st.now at) result
        t.old t.new }
{
    if s.len() <= at {
        return Err(refuse(Reason::CutShort, s.len()));
    }
    let kind = s[at];
    let shape = shape_of(kind);
    match shape {
        Shape::Unknown => Err(refuse(Reason::OutOfRange, at)),
        Shape::Part {
            body: _,
            parts: _,
            rule: _,
        } => read_term(edition, s, st, t, n, at),
        Shape::Declare { body, once } => {
            let judged = judge_declare(s, st, at);
            let c = declared_standing(at, once);
            read_after(edition, s, st, t, n, left, at, body, c, judged)
        }
        Shape::Retire { body } => {
            let judged = judge_fresh(s, st, at + 1);
            read_after(edition, s, st, t, n, left, at, body, RETIRED, judged)
        }
    }
}

// Goes on after the name record at a place, once its bytes are judged; its id gets standing c.
#[cycle(names)]
fn read_after(
    edition: Edition,
    s: &[u8],
    st: &[u32; 255],
    t: &mut [u16],
    n: Numbers,
    left: u8,
    at: usize,
    body: u8,
    c: u32,
    judged: Result<(), Refusal>,
) -> Result<Reading, Refusal>
    requires { (length s.now ≤ 4096) × (at < 4096) }
    ensures { (name : Name) → ReadsSheet n
        (name_of (names_of edition (left - 1) n s.now) left s.now st.now at body c judged name) result
        t.old t.new }
{
    if left == 0 {
        return Err(refuse(Reason::TooManyNames, at));
    }
    judged?;
    let next = registered(s, st, at, c);
    read_names(edition, s, &next, t, n, left - 1, at + 1 + body as usize)
}
