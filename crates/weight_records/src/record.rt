// The weight of a record whose parts are weighed: their forms are the last of the stack, and its own takes their place.
ghost use Rattle.std.specs.Prelude.{◌≡◌, ℕ, suc, ◌+◌, ◌-◌, ◌≤◌, ◌<◌, min, length, set, IfSome};
ghost use Rattle.language.specs.Choice.{pick};
ghost use Rattle.weight_theory.specs.Stack.{marks_from, slots_from, height-at, most_forms, spot, form_word, constant_form};
ghost use Rattle.sheet_rows.specs.PartKind.{PARTS, VALUES};
ghost use Rattle.sheet_rows.specs.Row.{word};
ghost use Rattle.weight_theory.specs.Step.{part_added, parts_added, closed, weighed_plain, weighed_procedure, weighed};
ghost use Rattle.weight_records.specs.Few.{RowAt, LeafKind, SumKind};
ghost use Rattle.weight_records.specs.inner.Sum.{SumOf};

use sheet_parts::weight::{sat_add, sat_mul};
use sheet_records::limits::MOST_BYTES;
use sheet_records::store::put;
use sheet_rows::kind::PROCEDURE;
use sheet_rows::pack::COME_SPAN;
use sheet_rows::row::{DETAIL, HEIGHT, KIND, MARKS, PARTS, SLOTS, VALUES, word_of};
use weight_forms::read::{constant, width};
use weight_forms::set::{has_form, set_constant, set_lower};
use weight_forms::sum::add;
use weight_forms::table::{MOST_FORMS, MOST_PARAMETERS};
use weight_plans::mark::{come_at, come_of, used_of};
use weight_plans::plan::{extra_of, factor_of, own_of, parts_of, start};
use weight_plans::row::{height_of, short_of};

// How many parts a procedure has.
const TERMS: usize = 2;

// Stores v at i, if the table reaches that far.
fn store(t: &mut [u16], i: usize, v: usize)
    requires { v < 65536 }
    ensures { t.new ≡ set t.old i v }
{
    put(t, i, v as u16);
}

// Adds part j of the record at a place, whose form is `first + j`, to a form.
#[tactic(auto, unfolding(weight_theory::specs::Step::part_added))]
fn add_part(
    t: &mut [u16],
    kind: usize,
    detail: usize,
    k: usize,
    at: usize,
    first: usize,
    row: usize,
    j: usize,
)
    requires { (detail < 65536) × (k < 65536) × (at < 65536) × (first + j < 65536) × (row < 65536) × (j < 4) }
    ensures { t.new ≡ part_added kind detail k at first row j t.old }
{
    let place = word_of(t, at, PARTS + j);
    let factor = factor_of(t, kind, detail, k, at, place, j);
    let extra = extra_of(t, kind, place);
    add(t, row, first + j, factor, extra);
}

// Adds its n parts, whose forms are those from `first` on.
fn add_parts(
    t: &mut [u16],
    kind: usize,
    detail: usize,
    k: usize,
    at: usize,
    first: usize,
    row: usize,
    n: usize,
)
    requires { (detail < 65536) × (k < 65536) × (at < 65536) × (first + n < 65536) × (row < 65536) × (n ≤ 4) }
    ensures { t.new ≡ parts_added kind detail k at first row n 0 t.old }
{
    for j in 0..n {
        add_part(t, kind, detail, k, at, first, row, j);
    }
}

// Notes that the part at a place has the form `to`, which is the last one, and its mark.
fn note(t: &mut [u16], at: usize, to: usize, mark: usize)
    requires { (at < 65536) × (to < 65536) × (mark < 65536) }
    ensures { t.new ≡ set (set (set t.old (marks_from + at) mark) (slots_from + at) to)
        height-at (min (suc to) most_forms) }
{
    store(t, MARKS + at, mark);
    store(t, SLOTS + at, to);
    let height = (to + 1).min(MOST_FORMS);
    store(t, HEIGHT, height);
}

// The form `row` becomes the form `to`, which is that of the part at a place and the last one; and its mark.
#[tactic(auto, unfolding(weight_theory::specs::Step::closed))]
fn close(t: &mut [u16], at: usize, to: usize, row: usize, mark: usize)
    requires { (at < 65536) × (to < 65536) × (row < 65536) × (mark < 65536) }
    ensures { t.new ≡ closed at to row mark t.old }
{
    if to == row {
        note(t, at, to, mark);
        return;
    }
    set_lower(t, to, row, MOST_PARAMETERS);
    note(t, at, to, mark);
}

// The form `to` of the part at a place, which becomes the last one, is the constant c, and so is the form `row` above
// the stack, in which a sum of forms is made; the part comes down to nothing.
fn settle(t: &mut [u16], at: usize, to: usize, row: usize, c: u32)
    requires { (at < 65536) × ((to < row) × (row < 65536)) }
    ensures { spot row 1 < length t.old → t.new
        ≡ closed at to row 0 (constant_form row c t.old) }
{
    set_constant(t, row, c);
    set_constant(t, to, c);
    note(t, at, to, 0);
}

// Weighs and marks a record that is no procedure.
#[tactic(auto, unfolding(weight_theory::specs::Step::weighed_plain, weight_theory::specs::Step::parts_added))]
fn weigh_plain(t: &mut [u16], k: usize, at: usize, kind: usize, detail: usize)
    requires { (k < 65536) × (at < 65536) × (detail < 65536) }
    ensures { t.new ≡ weighed_plain k at kind detail t.old }
{
    let n = parts_of(kind, detail);
    let row = height_of(t);
    let mark = come_of(t, kind, detail, k, at, n);
    start(t, row, kind, detail, k);
    if n == 0 {
        close(t, at, row, row, mark);
        return;
    }
    let to = row.saturating_sub(n);
    add_parts(t, kind, detail, k, at, to, row, n);
    close(t, at, to, row, mark);
}

// Weighs and marks a procedure, which weighs what its second term weighs. Its number says which arguments its own term
// uses.
#[tactic(auto, unfolding(weight_theory::specs::Step::weighed_procedure))]
fn weigh_procedure(t: &mut [u16], at: usize, number: usize)
    requires { (at < 65536) × (number < 65536) }
    ensures { t.new ≡ weighed_procedure at number t.old }
{
    let to = height_of(t).saturating_sub(TERMS);
    let used = used_of(t, to, number);
    let c = come_at(t, word_of(t, at, PARTS + 1));
    close(t, at, to, to + 1, c + COME_SPAN * used);
}

// Weighs and marks the record at a place; k is the number of the procedure that it uses, if it is such a use.
#[tactic(auto, unfolding(weight_theory::specs::Step::weighed))]
pub fn weigh_record(t: &mut [u16], at: usize, k: usize)
    requires { (at < 4096) × (k < 65536) }
    ensures { t.new ≡ weighed k at t.old }
{
    let kind = word_of(t, at, KIND);
    let detail = word_of(t, at, DETAIL);
    if kind == PROCEDURE {
        weigh_procedure(t, at, detail);
        return;
    }
    weigh_plain(t, k, at, kind, detail);
}

// Weighs and marks a record without parts, whose row has the kind and the detail.
pub fn weigh_leaf(t: &mut [u16], at: usize, kind: usize, detail: usize)
    requires { at < 4096 }
    ensures { (k : ℕ) → LeafKind kind detail → RowAt t.old at kind detail → t.new
        ≡ weighed k at t.old }
{
    let row = height_of(t);
    set_constant(t, row, own_of(kind, detail));
    note(t, at, row, 0);
}

// The number of values of the data of the first part of the record at a place; 0 where that part is not after it.
pub fn first_values(t: &[u16], at: usize) -> u32
    requires { at < 4096 }
    ensures { (result < 65536) × (0 < result → (at < word t.now at PARTS)
        × ((word t.now at PARTS < 4096)
        × (result ≡ word t.now (word t.now at PARTS) VALUES))) }
{
    let place = word_of(t, at, PARTS);
    if place <= at {
        return 0;
    }
    if MOST_BYTES <= place {
        return 0;
    }
    short_of(t, place, VALUES)
}

// The constant of a form, where it has no coefficients.
fn bare(t: &[u16], row: usize) -> Option<u32>
    requires { row < 65536 }
    ensures { IfSome result (λ c. (form_word t.now row 0 ≡ 0) × (c ≡ form_word t.now row 1)) }
{
    if width(t, row) == 0 {
        Some(constant(t, row))
    } else {
        None
    }
}

// The sum of the constants of n forms from one on, at most three: the first and the second as often as said; none where
// a form has coefficients.
fn sum_of(t: &[u16], from: usize, n: usize, first: u32, second: u32) -> Option<u32>
    requires { (from + n < 65536) × ((0 < n) × (n ≤ 3)) }
    ensures { IfSome result (λ c. SumOf t.now from n first second c) }
{
    let c = sat_mul(first, bare(t, from)?);
    if n == 1 {
        return Some(c);
    }
    let d = sat_add(c, sat_mul(second, bare(t, from + 1)?));
    if n == 2 {
        return Some(d);
    }
    Some(sat_add(d, bare(t, from + 2)?))
}

// Weighs and marks the record at a place by its n parts, at most three, the first and the second as often as said;
// false, with the table as it was, where the form of one has coefficients.
pub fn weigh_parts(t: &mut [u16], at: usize, n: usize, first: u32, second: u32) -> bool
    requires { (at < 4096) × ((0 < n) × (n ≤ 3)) }
    ensures { (k kind detail : ℕ) → RowAt t.old at kind detail
        → SumKind t.old at kind detail n first second
        → t.new ≡ pick result (weighed k at t.old) t.old }
{
    let row = height_of(t);
    if row < n {
        return false;
    }
    if !has_form(t, row) {
        return false;
    }
    let Some(c) = sum_of(t, row - n, n, first, second) else {
        return false;
    };
    settle(t, at, row - n, row, c);
    true
}
