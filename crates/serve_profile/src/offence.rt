// The first record that offends against the profile, in one pass over the records of a sheet. The table says of each
// where its part ends and the class of its type.
ghost use Rattle.std.specs.Prelude.{◌≡◌, ◌≤◌, ◌<◌, length};
ghost use Rattle.serve_profile.specs.inner.Pass.{loud_from, loud_at, reach_at, offends_at, Finds};

use sheet_records::kind::{PROCEDURE, SEQUENCE, USE, body_of};
use sheet_records::limits::MOST_ARGUMENTS;
use sheet_records::read::get_or;
use sheet_rows::row::{CLASS, END, TABLE, word_of};

// The class of expressions.
const EXPRESSIONS: usize = sheet_rows::class::EXPRESSIONS as usize;

// Whether one of at most `left` arguments, which stand from one place up to another, is no expression. The classes
// looked at are those of the arguments; what offends is defined by the types that are declared (`loud_use`). In an
// accepted sheet these are the same: so says `Finds`.
fn any_loud(t: &[u16], left: usize, at: usize, end: usize) -> bool
    requires { at < 65536 }
    ensures { result ≡ loud_from t.now left at end }
{
    if left == 0 {
        return false;
    }
    if end <= at {
        return false;
    }
    if word_of(t, at, CLASS) != EXPRESSIONS {
        return true;
    }
    let next = word_of(t, at, END);
    any_loud(t, left - 1, next, end)
}

// Whether the record of a kind at a place may not stand inside an expression.
#[tactic(auto, unfolding(crate::specs::inner::Pass::loud_at))]
fn is_loud(t: &[u16], at: usize, kind: u8) -> bool
    requires { at ≤ 4096 }
    ensures { result ≡ loud_at t.now at kind }
{
    if kind == SEQUENCE {
        return true;
    }
    if kind == PROCEDURE {
        return true;
    }
    if kind == USE {
        let end = word_of(t, at, END);
        let from = at + 1 + body_of(kind);
        return any_loud(t, MOST_ARGUMENTS, from, end);
    }
    false
}

// Where the outermost expression ends that has the record at a place, or the last one before it, which ended at
// `until`.
#[tactic(auto, unfolding(crate::specs::inner::Pass::reach_at))]
fn reach(t: &[u16], at: usize, until: usize) -> usize
    requires { at ≤ 4096 }
    ensures { result ≡ reach_at t.now at until }
{
    if at < until {
        return until;
    }
    if word_of(t, at, CLASS) == EXPRESSIONS {
        return word_of(t, at, END);
    }
    until
}

// Whether the record of a kind at a place offends, where the outermost expression around it, or the last one before it,
// ends at `until`.
#[tactic(auto, unfolding(crate::specs::inner::Pass::offends_at))]
fn offends(t: &[u16], at: usize, until: usize, kind: u8) -> bool
    requires { at ≤ 4096 }
    ensures { result ≡ offends_at t.now at until kind }
{
    if until <= at {
        return false;
    }
    is_loud(t, at, kind)
}

// The place of the first record that offends, of a sheet whose term is at `root`.
pub(crate) fn first_offence(s: &[u8], t: &[u16; TABLE], root: usize) -> Option<usize>
    requires { length s.now ≤ 4096 }
    ensures { Finds s.now t.now root result }
{
    let mut at = root;
    let mut until = 0;
    // A while: a record is as wide as its kind says.
    while at < s.len() {
        let kind = get_or(s, at, 0);
        until = reach(t, at, until);
        if offends(t, at, until, kind) {
            return Some(at);
        }
        at += 1 + body_of(kind);
    }
    None
}
