// Words of tables, of slots and of marks.
ghost use Rattle.std.specs.Prelude.{◌≡◌, ◌+◌, ◌%◌, ◌/◌, get_or, set};
ghost use Rattle.sheet_rows.specs.Row.{cell, word};
ghost use Rattle.sheet_rows.specs.PartKind.{ONCE};
ghost use Rattle.term_closing.specs.Close.{come_of, used_of, more_of, first_bits, passed_slots};

use sheet_records::read::get_or;
use sheet_records::store::put;
use sheet_rows::row::ROW_WORDS;

// The words of a row by number: the kind of a part, its weight (of a row of the expansion), the class of its type, the
// number of values of its data, a detail by its kind, and its parts.
pub const KIND: u16 = sheet_rows::row::KIND as u16;

pub(crate) const WEIGHT: u16 = sheet_rows::row::WEIGHT as u16;

pub(crate) const CLASS: u16 = sheet_rows::row::CLASS as u16;

pub(crate) const VALUES: u16 = sheet_rows::row::VALUES as u16;

pub const DETAIL: u16 = sheet_rows::row::DETAIL as u16;

pub const PARTS: u16 = sheet_rows::row::PARTS as u16;

// What numbers are packed by.
const COME_SPAN: u16 = sheet_rows::pack::COME_SPAN as u16;

const PLACE_SPAN: u16 = sheet_rows::pack::PLACE_SPAN as u16;

const ID_SPAN: u16 = sheet_rows::pack::ID_SPAN as u16;

const COUNT_SPAN: u16 = sheet_rows::pack::COUNT_SPAN as u16;

const ONCE: u16 = sheet_rows::pack::ONCE as u16;

// Where word i of row r stands.
#[tactic(auto, unfolding(sheet_rows::specs::Row::cell))]
pub(crate) fn place_of(r: u16, i: u16) -> usize
    ensures { result ≡ cell r i }
{
    ROW_WORDS * (r as usize) + (i as usize)
}

// Word i of row r, or 0 beyond the table.
#[tactic(auto, unfolding(sheet_rows::specs::Row::word))]
pub fn word_at(t: &[u16], r: u16, i: u16) -> u16
    ensures { result ≡ word t.now r i }
{
    get_or(t, place_of(r, i), 0)
}

// Word i of row r becomes v, if the table reaches that far.
pub(crate) fn put_word(t: &mut [u16], r: u16, i: u16, v: u16)
    ensures { t.new ≡ set t.old (cell r i) v }
{
    let j = place_of(r, i);
    put(t, j, v);
}

// The mark at a place.
fn mark_at(marks: &[u16], at: u16) -> u16
    ensures { result ≡ get_or marks.now at 0 }
{
    get_or(marks, at as usize, 0)
}

// What the part at a place comes down to: 0, or 1 and the number of a parameter.
#[tactic(auto, unfolding(crate::specs::Close::come_of))]
pub fn come_at(marks: &[u16], at: u16) -> u16
    ensures { result ≡ come_of (get_or marks.now at 0) }
{
    mark_at(marks, at) % COME_SPAN
}

// Which arguments the procedure at a place uses: a bit for each.
#[tactic(auto, unfolding(crate::specs::Close::used_of))]
pub fn used_at(marks: &[u16], at: u16) -> u16
    ensures { result ≡ used_of (get_or marks.now at 0) }
{
    mark_at(marks, at) / COME_SPAN
}

// The row in slot s.
pub fn slot_at(slots: &[u16; 128], s: u16) -> u16
    ensures { result ≡ get_or slots.now s 0 }
{
    get_or(slots, s as usize, 0)
}

// Slot s becomes the row v.
pub fn put_slot(slots: &mut [u16; 128], s: u16, v: u16)
    ensures { slots.new ≡ set slots.old s v }
{
    put(slots, s as usize, v);
}

// The slots of procedure k become the rows of its arguments.
#[tactic(auto, unfolding(crate::specs::Close::passed_slots))]
pub fn pass(slots: &mut [u16; 128], k: u16, a: u16, b: u16, c: u16, d: u16)
    ensures { slots.new ≡ passed_slots slots.old k a b c d }
{
    let j = k as usize;
    put(slots, j, a);
    put(slots, j + 1, b);
    put(slots, j + 2, c);
    put(slots, j + 3, d);
}

// x + y, held at the greatest word.
#[tactic(auto, unfolding(crate::specs::Close::more_of))]
pub fn more(x: u16, y: u16) -> u16
    ensures { result ≡ more_of x y }
{
    x.saturating_add(y)
}

// The place of the procedure that a use with this detail leads to.
pub fn procedure_of(detail: u16) -> u16
    ensures { result ≡ detail % 4096 }
{
    detail % PLACE_SPAN
}

// How many arguments a use with this detail has.
pub fn passed_of(detail: u16) -> u16
    ensures { result ≡ detail / 4096 }
{
    detail / PLACE_SPAN
}

// How many arguments a name with this detail has.
pub(crate) fn arguments_of(detail: u16) -> u16
    ensures { result ≡ detail / 256 % 8 }
{
    detail / ID_SPAN % COUNT_SPAN
}

// What a name with this detail weighs beside its arguments.
pub(crate) fn own_of(detail: u16) -> u16
    ensures { result ≡ 2 + detail / ONCE % 2 }
{
    2 + detail / ONCE % 2
}

// A bit for each of so many arguments.
#[tactic(auto, unfolding(crate::specs::Close::first_bits))]
pub(crate) fn first_bits(count: u16) -> u16
    ensures { result ≡ first_bits count }
{
    match count {
        0 => 0,
        1 => 1,
        2 => 3,
        3 => 7,
        _ => 15,
    }
}
