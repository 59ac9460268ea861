// The words of a row, once its parts have theirs.
ghost use Rattle.std.specs.Prelude.{◌≡◌, ◌+◌, ◌<◌, min, length};
ghost use Rattle.sheet_records.specs.Limits.{held_at};
ghost use Rattle.sheet_rows.specs.Row.{word};
ghost use Rattle.term_closing.specs.Close.{parts_of, stays_of, argument_weight, name_weight, first_values, weight_of};
ghost use Rattle.term_closing.specs.Close.{detail_of, head_put, parts_put, closed_row, five_at, four_at, leaf_weight};
ghost use Rattle.sheet_rows.specs.PartKind.{KIND, DETAIL};
ghost use Rattle.term_closing.specs.Rows.{ROWS};
ghost use Rattle.term_closing.specs.Close.{kind_weight};

use crate::words::{
    CLASS, DETAIL, KIND, PARTS, VALUES, WEIGHT, arguments_of, first_bits, own_of, place_of,
    put_word, slot_at, word_at,
};
use sheet_parts::weight::{sat_add, sat_mul};
use sheet_rows::class::{answers_by, questions_by};
use sheet_rows::short_kind::{
    ASSIGN, FETCH, IF, NAME, NEW, OPERATE, PRIVATE, PROCEDURE, ROUTINE, SEQUENCE, WHILE,
};

// What stands in a slot, or for a part, where there is no row.
pub const NO_ROW: u16 = 12288;

// Which parts a record has: a bit for each.
const ONE: u16 = 1;

const TWO: u16 = 3;

const THREE: u16 = 7;

// Which parts a record of a kind has, where its detail is given.
#[tactic(auto, unfolding(crate::specs::Close::parts_of))]
pub fn parts_of(kind: u16, detail: u16) -> u16
    ensures { result ≡ parts_of kind detail }
{
    match kind {
        NAME => first_bits(arguments_of(detail)),
        FETCH | NEW => ONE,
        OPERATE | ASSIGN | SEQUENCE | WHILE => TWO,
        IF => THREE,
        _ => 0,
    }
}

// Whether the slots stay as they are for the parts of a record of a kind.
#[tactic(auto, unfolding(crate::specs::Close::stays_of))]
pub fn stays(kind: u16) -> bool
    ensures { result ≡ stays_of kind }
{
    !matches!(kind, PROCEDURE | ROUTINE | NEW)
}

// What argument j of the name at a place adds to its weight, where the argument's row weighs w.
#[tactic(auto, unfolding(crate::specs::Close::argument_weight))]
fn argument_weight(t: &[u16], at: u16, j: u16, w: u16) -> u32
    requires { j < 4 }
    ensures { result ≡ min (argument_weight t.now at j w) held_at }
{
    if j < arguments_of(word_at(t, at, DETAIL)) {
        let p = word_at(t, at, PARTS + j);
        let class = word_at(t, p, CLASS);
        let values = word_at(t, p, VALUES);
        let product = sat_mul(questions_by(class as u32, values as u32), w as u32);
        return sat_add(product, answers_by(class as u32, values as u32));
    }
    0
}

// The weight of a name at a place whose arguments' rows weigh as given.
#[tactic(auto, unfolding(crate::specs::Close::name_weight))]
fn name_weight(t: &[u16], at: u16, a: u16, b: u16, c: u16, d: u16) -> u32
    ensures { result ≡ min (name_weight t.now at a b c d) held_at }
{
    let first = argument_weight(t, at, 0, a);
    let second = argument_weight(t, at, 1, b);
    let third = argument_weight(t, at, 2, c);
    let fourth = argument_weight(t, at, 3, d);
    let own = own_of(word_at(t, at, DETAIL));
    sat_add(
        own as u32,
        sat_add(first, sat_add(second, sat_add(third, fourth))),
    )
}

// The values of the first part of the part at a place.
#[tactic(auto, unfolding(crate::specs::Close::first_values))]
fn first_values(t: &[u16], at: u16) -> u16
    ensures { result ≡ first_values t.now at }
{
    word_at(t, word_at(t, at, PARTS), VALUES)
}

// The weight of the row for the part of a kind at a place, where a, b, c and d weigh its parts. In the order in which
// document 001 defines the plays: constants, operators, commands, identifiers, then variables; 1 for no kind of a row.
#[tactic(auto, unfolding(crate::specs::Close::kind_weight))]
fn kind_weight(t: &[u16], at: u16, kind: u16, a: u16, b: u16, c: u16, d: u16) -> u32
    ensures { result ≡ min (kind_weight t.now at kind a b c d) held_at }
{
    match kind {
        // operators (definition 14)
        OPERATE => sat_add(a as u32, sat_mul(first_values(t, at) as u32, b as u32)),
        // commands (definition 15)
        SEQUENCE | WHILE => sat_add(a as u32, b as u32),
        IF => sat_add(a as u32, sat_add(b as u32, c as u32)),
        // identifiers (definition 18), with application (definition 22)
        NAME => name_weight(t, at, a, b, c, d),
        PRIVATE => 2,
        // variables (definitions 24 to 26): fetch, assign and new
        FETCH => sat_add(a as u32, 0),
        ASSIGN => sat_add(b as u32, sat_mul(first_values(t, at) as u32, a as u32)),
        NEW => sat_mul(word_at(t, at, DETAIL) as u32, a as u32),
        // constants (definition 13); skip and diverge
        _ => 1,
    }
}

// The weight of the row for the part at a place whose parts are the rows a, b, c and d, held at 4,097.
#[tactic(auto, unfolding(crate::specs::Close::weight_of))]
fn weight_of(t: &[u16], rows: &[u16], at: u16, a: u16, b: u16, c: u16, d: u16) -> u16
    ensures { result ≡ min (weight_of t.now rows.now at a b c d) held_at }
{
    let kind = word_at(t, at, KIND);
    let first = word_at(rows, a, WEIGHT);
    let second = word_at(rows, b, WEIGHT);
    let third = word_at(rows, c, WEIGHT);
    let fourth = word_at(rows, d, WEIGHT);
    kind_weight(t, at, kind, first, second, third, fourth) as u16
}

// The detail of the row for the part at a place.
#[tactic(auto, unfolding(crate::specs::Close::detail_of))]
fn detail_of(t: &[u16], slots: &[u16; 128], at: u16) -> u16
    ensures { result ≡ detail_of t.now slots.now at }
{
    let detail = word_at(t, at, DETAIL);
    match word_at(t, at, KIND) {
        PRIVATE => slot_at(slots, detail),
        ASSIGN => first_values(t, at),
        _ => detail,
    }
}

// Stores five words from `at` on.
#[tactic(auto, unfolding(crate::specs::Close::five_at))]
fn put_five(
    rows: &mut [u16],
    at: usize,
    kind: u16,
    weight: u16,
    class: u16,
    values: u16,
    detail: u16,
)
    requires { at + 4 < length rows.old }
    ensures { rows.new ≡ five_at rows.old at kind weight class values detail }
{
    rows[at] = kind;
    rows[at + 1] = weight;
    rows[at + 2] = class;
    rows[at + 3] = values;
    rows[at + 4] = detail;
}

// Stores four words from `at` on.
#[tactic(auto, unfolding(crate::specs::Close::four_at))]
fn put_four(rows: &mut [u16], at: usize, a: u16, b: u16, c: u16, d: u16)
    requires { at + 3 < length rows.old }
    ensures { rows.new ≡ four_at rows.old at a b c d }
{
    rows[at] = a;
    rows[at + 1] = b;
    rows[at + 2] = c;
    rows[at + 3] = d;
}

// Stores the first five words of row n one by one.
#[tactic(auto, unfolding(crate::specs::Close::head_put))]
fn put_head_each(
    rows: &mut [u16],
    n: u16,
    kind: u16,
    weight: u16,
    class: u16,
    values: u16,
    detail: u16,
)
    ensures { rows.new ≡ head_put rows.old n kind weight class values detail }
{
    put_word(rows, n, KIND, kind);
    put_word(rows, n, WEIGHT, weight);
    put_word(rows, n, CLASS, class);
    put_word(rows, n, VALUES, values);
    put_word(rows, n, DETAIL, detail);
}

// Stores the first five words of row n: with one test where the rows have them all.
#[tactic(auto, unfolding(crate::specs::Close::head_put, crate::specs::Close::five_at, sheet_rows::specs::Row::cell))]
fn put_head(rows: &mut [u16], n: u16, kind: u16, weight: u16, class: u16, values: u16, detail: u16)
    ensures { rows.new ≡ head_put rows.old n kind weight class values detail }
{
    if place_of(n, DETAIL) < rows.len() {
        put_five(rows, place_of(n, KIND), kind, weight, class, values, detail);
        return;
    }
    put_head_each(rows, n, kind, weight, class, values, detail);
}

// Stores the rows of the parts of row n one by one.
#[tactic(auto, unfolding(crate::specs::Close::parts_put))]
fn put_parts_each(rows: &mut [u16], n: u16, a: u16, b: u16, c: u16, d: u16)
    ensures { rows.new ≡ parts_put rows.old n a b c d }
{
    put_word(rows, n, PARTS, a);
    put_word(rows, n, PARTS + 1, b);
    put_word(rows, n, PARTS + 2, c);
    put_word(rows, n, PARTS + 3, d);
}

// Stores the rows of the parts of row n: with one test where the rows have them all.
#[tactic(auto, unfolding(crate::specs::Close::parts_put, crate::specs::Close::four_at, sheet_rows::specs::Row::cell))]
fn put_parts(rows: &mut [u16], n: u16, a: u16, b: u16, c: u16, d: u16)
    ensures { rows.new ≡ parts_put rows.old n a b c d }
{
    if place_of(n, PARTS + 3) < rows.len() {
        put_four(rows, place_of(n, PARTS), a, b, c, d);
        return;
    }
    put_parts_each(rows, n, a, b, c, d);
}

// Writes row n for the part at a place whose parts are the rows a, b, c and d.
#[tactic(auto, unfolding(crate::specs::Close::closed_row))]
pub fn close_row(
    t: &[u16],
    slots: &[u16; 128],
    rows: &mut [u16],
    at: u16,
    n: u16,
    a: u16,
    b: u16,
    c: u16,
    d: u16,
)
    ensures { rows.new ≡
        closed_row t.now slots.now rows.old at n a b c d }
{
    let kind = word_at(t, at, KIND);
    let class = word_at(t, at, CLASS);
    let values = word_at(t, at, VALUES);
    let detail = detail_of(t, slots, at);
    let weight = weight_of(t, rows, at, a, b, c, d);
    put_head(rows, n, kind, weight, class, values, detail);
    put_parts(rows, n, a, b, c, d);
}

// The weight of a row without parts, where its detail is given.
#[tactic(auto, unfolding(crate::specs::Close::leaf_weight))]
fn leaf_weight(kind: u16, detail: u16) -> u16
    ensures { result ≡ leaf_weight kind detail }
{
    match kind {
        // identifiers (definition 18)
        NAME => own_of(detail),
        PRIVATE => 2,
        // constants (definition 13); skip and diverge
        _ => 1,
    }
}

// Writes row n for the part at a place, which has no parts.
pub fn close_leaf(t: &[u16], slots: &[u16; 128], rows: &mut [u16], at: u16, n: u16)
    requires { parts_of (word t.now at KIND) (word t.now at DETAIL) ≡ 0 }
    ensures { rows.new ≡
        closed_row t.now slots.now rows.old at n ROWS ROWS ROWS ROWS }
{
    let kind = word_at(t, at, KIND);
    let class = word_at(t, at, CLASS);
    let values = word_at(t, at, VALUES);
    let detail = detail_of(t, slots, at);
    let weight = leaf_weight(kind, word_at(t, at, DETAIL));
    put_head(rows, n, kind, weight, class, values, detail);
    put_parts(rows, n, NO_ROW, NO_ROW, NO_ROW, NO_ROW);
}
