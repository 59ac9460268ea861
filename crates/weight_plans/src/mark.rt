// Marks of parts: what they come down to, and which arguments a procedure uses.
ghost use Rattle.std.specs.Prelude.{◌≡◌, ◌≤◌, ◌<◌};
ghost use Rattle.sheet_written.specs.Made.{sign};
ghost use Rattle.weight_theory.specs.Stack.{marks_in, coefficient_of};
ghost use Rattle.weight_theory.specs.Plan.{come_at, argument_of, through_of, come_of, used_of};

use crate::row::term_place;
use sheet_records::read::get_or;
use sheet_rows::kind::{PARAMETER, ROUTINE};
use sheet_rows::pack::COME_SPAN;
use sheet_rows::row::{MARKS, PARTS, word_of};
use weight_forms::read::coefficient;

// The greatest number that a procedure has: it may have four parameters.
const LAST_PROCEDURE: usize = 124;

// What the part at a place comes down to.
pub fn come_at(t: &[u16], place: usize) -> usize
    requires { place < 65536 }
    ensures { (result ≡ come_at (marks_in t.now) place) × (result < 128) }
{
    get_or(t, MARKS + place, 0) as usize % COME_SPAN
}

// What argument j of the use at a place comes down to.
#[tactic(auto, unfolding(weight_theory::specs::Plan::argument_of))]
fn argument_of(t: &[u16], at: usize, count: usize, j: usize) -> usize
    requires { (at < 65536) × (count ≤ 4) }
    ensures { (result ≡ argument_of t.now (marks_in t.now) at count j) × (result < 128) }
{
    if j < count {
        return come_at(t, word_of(t, at, PARTS + j));
    }
    0
}

// What a use of the procedure k comes down to, where the procedure's term comes down to c.
#[tactic(auto, unfolding(weight_theory::specs::Plan::through_of))]
fn through_of(t: &[u16], at: usize, count: usize, k: usize, c: usize) -> usize
    requires { (at < 65536) × (count ≤ 4) × (c < 128) }
    ensures { (result ≡ through_of t.now (marks_in t.now) at count k c) × (result < 128) }
{
    if c == 0 {
        return 0;
    }
    if c - 1 < k {
        return c;
    }
    argument_of(t, at, count, c - 1 - k)
}

// What the record at a place comes down to.
#[tactic(auto, unfolding(weight_theory::specs::Plan::come_of))]
pub fn come_of(t: &[u16], kind: usize, detail: usize, k: usize, at: usize, count: usize) -> usize
    requires { (at < 65536) × (count ≤ 4) }
    ensures { (result ≡ come_of t.now (marks_in t.now) kind detail k at count) × (result < 128) }
{
    match kind {
        PARAMETER => 1 + detail.min(LAST_PROCEDURE),
        ROUTINE => {
            let c = come_at(t, term_place(t, detail));
            through_of(t, at, count, k, c)
        }
        _ => 0,
    }
}

// Whether a form has the parameter s: its coefficient is above 0.
#[tactic(auto, unfolding(sheet_written::specs::Made::sign))]
fn used(t: &[u16], row: usize, s: usize) -> usize
    requires { row < 65536 }
    ensures { (result ≡ sign (coefficient_of t.now row s)) × (result ≤ 1) }
{
    usize::from(coefficient(t, row, s) != 0)
}

// Which arguments the procedure k uses, by the form of its term: a bit each.
#[tactic(auto, unfolding(weight_theory::specs::Plan::used_of, sheet_written::specs::Marks::bits))]
pub fn used_of(t: &[u16], row: usize, k: usize) -> usize
    requires { (row < 65536) × (k < 65536) }
    ensures { (result ≡ used_of t.now row k) × (result < 16) }
{
    used(t, row, k) + 2 * used(t, row, k + 1) + 4 * used(t, row, k + 2) + 8 * used(t, row, k + 3)
}
