// The table of parts: nine words for each place of a sheet.
ghost use Rattle.std.specs.Prelude.{◌≡◌, ◌+◌, ◌*◌, ◌<◌, set, length};
ghost use Rattle.sheet_rows.specs.Row.{cell, word, use_kind, row_kind, class_of, declared_detail, use_detail, detail};
ghost use Rattle.sheet_rows.specs.Row.{five_from, five, row_written, linked};
ghost use Rattle.sheet_rows.specs.PartKind.{ROW-WORDS};
ghost use Rattle.sheet_records.specs.Standing.{standing_of};
ghost use Rattle.sheet_parts.specs.Rule.{values};

use crate::short_kind::{CONSTANT, PARAMETER, PRIVATE, ROUTINE};
use language::Numbers;
use sheet_heads::head::Record;
use sheet_parts::typing::{COMMAND, TRUTH_VARIABLE};
use sheet_parts::weight::values_of;
use sheet_records::kind::Rule;
use sheet_records::read::get_or;
use sheet_records::standing::Standing;
use sheet_records::store::put;

// The words of a row: the kind of the part, the place after it, the class of its type and the number of values of its
// data, a detail by its kind, and the places of its parts.
pub const KIND: usize = 0;

pub const END: usize = 1;

// In the rows of a term, which the automaton is made from, the weight of the part stands there.
pub const WEIGHT: usize = 1;

pub const CLASS: usize = 2;

pub const VALUES: usize = 3;

pub const DETAIL: usize = 4;

pub const PARTS: usize = 5;

// How many they are.
pub const ROW_WORDS: usize = 9;

// After the rows of 4,096 places a table has a word for each byte that may be an id, the notes; a mark and a slot for
// each place; the height of the stack of forms, and the forms. Where they begin, and how many words a table has.
pub const NOTES: usize = 36864;

pub const MARKS: usize = 37120;

pub const SLOTS: usize = 41216;

pub const HEIGHT: usize = 45312;

pub const FORMS: usize = 45313;

pub const TABLE: usize = 58313;

// The classes of types, and what numbers are packed by, as words of the table.
const COMMANDS: u16 = crate::class::COMMANDS as u16;

const EXPRESSIONS: u16 = crate::class::EXPRESSIONS as u16;

const VARIABLES: u16 = crate::class::VARIABLES as u16;

const ID_SPAN: u16 = crate::pack::ID_SPAN as u16;

const PLACE_SPAN: u16 = crate::pack::PLACE_SPAN as u16;

const COUNT_SPAN: u8 = crate::pack::COUNT_SPAN as u8;

const ONCE: u16 = crate::pack::ONCE as u16;

// Word i of the row at a place.
fn cell_at(place: usize, i: usize) -> usize
    requires { (place < 65536) × (i < 65536) }
    ensures { result ≡ cell place i }
{
    ROW_WORDS * place + i
}

// Word i of the row at a place, 0 past the end.
pub fn word_of(t: &[u16], place: usize, i: usize) -> usize
    requires { (place < 65536) × (i < ROW-WORDS) }
    ensures { (result ≡ word t.now place i) × (result < 65536) }
{
    get_or(t, ROW_WORDS * place + i, 0) as usize
}

// Stores v in word i of the row at a place, if the table reaches that far.
fn put_cell(t: &mut [u16], place: usize, i: usize, v: u16)
    requires { (place < 65536) × (i < 65536) }
    ensures { t.new ≡ set t.old (cell place i) v }
{
    let at = cell_at(place, i);
    put(t, at, v);
}

// The kind in the row of a use, of an id whose standing is `c`.
#[tactic(auto, unfolding(crate::specs::Row::use_kind))]
fn use_kind(kind: u16, c: u32) -> u16
    ensures { result ≡ use_kind kind (standing_of c) }
{
    match Standing::from(c) {
        Standing::Free => kind,
        Standing::Retired => kind,
        Standing::Declared { place: _, once: _ } => kind,
        Standing::Variable {
            number: _,
            holds: _,
        } => PRIVATE,
        Standing::Parameter { number: _, ty: _ } => PARAMETER,
        Standing::Procedure {
            number: _,
            place: _,
        } => ROUTINE,
    }
}

// The kind in a record's row.
fn row_kind(rule: Rule, r: Record) -> u16
    ensures { result ≡ row_kind rule r }
{
    let kind = r.kind as u16;
    match rule {
        Rule::Skip => kind,
        Rule::Diverge => kind,
        Rule::Truth => kind,
        Rule::Number => CONSTANT,
        Rule::Use => use_kind(kind, r.b),
        Rule::Fetch => kind,
        Rule::Operate => kind,
        Rule::Assign => kind,
        Rule::Sequence => kind,
        Rule::If => kind,
        Rule::While => kind,
        Rule::New => kind,
        Rule::Procedure => kind,
    }
}

// The class of a type.
fn class_of(ty: u8) -> u16
    ensures { result ≡ class_of ty }
{
    if ty == COMMAND {
        return COMMANDS;
    }
    if ty < TRUTH_VARIABLE {
        EXPRESSIONS
    } else {
        VARIABLES
    }
}

// The detail of a use of a name: its id, 256 times the number of its arguments and, where it asks once, 2,048.
pub fn name_detail(id: u8, count: u8, once: u8) -> u16
    ensures { result ≡ declared_detail id count once }
{
    id as u16 + ID_SPAN * ((count % COUNT_SPAN) as u16) + ONCE * ((once % 2) as u16)
}

// The detail of a use: of a name as above, of a variable or a parameter its number, of a procedure the place of its
// record and 4,096 times the number of its arguments.
#[tactic(auto, unfolding(crate::specs::Row::use_detail))]
fn use_detail(r: Record) -> u16
    ensures { result ≡ use_detail r.a r.parts (standing_of r.b) }
{
    match Standing::from(r.b) {
        Standing::Free => name_detail(r.a, r.parts, 0),
        Standing::Retired => name_detail(r.a, r.parts, 0),
        Standing::Declared { place: _, once } => name_detail(r.a, r.parts, once),
        Standing::Variable { number, holds: _ } => number,
        Standing::Parameter { number, ty: _ } => number,
        Standing::Procedure { number: _, place } => {
            (place % PLACE_SPAN as u32) as u16 + PLACE_SPAN * ((r.parts % COUNT_SPAN) as u16)
        }
    }
}

// The detail in the row of a record that `number` binders enclose.
fn detail_of(rule: Rule, n: Numbers, r: Record, number: u8) -> u16
    ensures { result ≡ detail rule n r number }
{
    match rule {
        Rule::Skip => 0,
        Rule::Diverge => 0,
        Rule::Truth => r.a as u16,
        Rule::Number => language_codes::number::code_of_byte(n, r.a),
        Rule::Use => use_detail(r),
        Rule::Fetch => 0,
        Rule::Operate => r.a as u16,
        Rule::Assign => 0,
        Rule::Sequence => 0,
        Rule::If => 0,
        Rule::While => 0,
        Rule::New => values_of(n, r.b),
        Rule::Procedure => number as u16,
    }
}

// Stores five words from `at` on.
fn put_words(t: &mut [u16], at: usize, kind: u16, end: u16, class: u16, values: u16, detail: u16)
    requires { at + 4 < length t.old }
    ensures { t.new ≡ five_from at kind end class values detail t.old }
{
    t[at] = kind;
    t[at + END] = end;
    t[at + CLASS] = class;
    t[at + VALUES] = values;
    t[at + DETAIL] = detail;
}

// Stores those of the five words that the table reaches.
fn put_each(t: &mut [u16], place: usize, kind: u16, end: u16, class: u16, values: u16, detail: u16)
    requires { place < 65536 }
    ensures { t.new ≡ five place kind end class values detail t.old }
{
    put_cell(t, place, KIND, kind);
    put_cell(t, place, END, end);
    put_cell(t, place, CLASS, class);
    put_cell(t, place, VALUES, values);
    put_cell(t, place, DETAIL, detail);
}

// Stores the first five words of the row at a place: with one test where the table has them all.
fn put_five(t: &mut [u16], place: usize, kind: u16, end: u16, class: u16, values: u16, detail: u16)
    requires { place < 65536 }
    ensures { t.new ≡ five place kind end class values detail t.old }
{
    if cell_at(place, DETAIL) < t.len() {
        put_words(t, cell_at(place, KIND), kind, end, class, values, detail);
        return;
    }
    put_each(t, place, kind, end, class, values, detail);
}

// Writes the row of a record of a kind, a type and a detail that ends before a place, but for the places of its parts.
pub fn write_typed(
    t: &mut [u16],
    n: Numbers,
    place: usize,
    kind: u16,
    ty: u8,
    detail: u16,
    end: usize,
)
    requires { (place < 65536) × (end < 65536) }
    ensures { t.new ≡ five place kind end (class_of ty) (values n ty) detail t.old }
{
    let class = class_of(ty);
    let values = values_of(n, ty as u32);
    put_five(t, place, kind, end as u16, class, values, detail);
}

// Writes the row of a record of type ty that `number` binders enclose and that ends before a place, but for the places
// of its parts.
pub fn write_row(t: &mut [u16], n: Numbers, r: Record, ty: u8, number: u8, end: usize)
    requires { (r.place < 65536) × (end < 65536) }
    ensures { t.new ≡ row_written n r ty number end t.old }
{
    let rule = r.rule;
    let place = r.place;
    let kind = row_kind(rule, r);
    let detail = detail_of(rule, n, r, number);
    write_typed(t, n, place, kind, ty, detail, end);
}

// Writes the place of part j into the row at a place.
pub fn link(t: &mut [u16], place: usize, j: u8, part: usize)
    requires { (place < 65536) × (part < 65536) }
    ensures { t.new ≡ linked place j part t.old }
{
    put_cell(t, place, PARTS + j as usize, part as u16);
}
