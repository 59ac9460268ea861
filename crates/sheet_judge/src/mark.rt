// Which names a sheet uses: the mark, a bit for each name record, the first lowest.
ghost use Rattle.std.specs.Prelude.{◌≡◌, ◌+◌, ◌*◌, ◌≤◌};
ghost use Rattle.sheet_judge.specs.Masks.{mask, every, uses_at, declared_at};
ghost use Rattle.sheet_reader.specs.table.Notes.{is_noted};

use sheet_reader::note::is_noted;
use sheet_records::kind::{ID, Shape, shape_of};
use sheet_records::limits::{FIRST_RECORD, MOST_NAMES};
use sheet_records::read::get_or;

// The mark of a sheet, how many of its bits are set, and the number of the first declared record without one, or 32.
#[derive(Drop)]
pub struct Uses {
    pub mark: u32,
    pub used: u32,
    pub unused: u32,
}

// A bit for each of `left` name records at most from a place on: set where the record's name is noted.
fn mark_from(s: &[u8], t: &[u16], left: u8, at: usize) -> u32
    requires { (left ≤ 32) × (at + 256 * left ≤ 65536) }
    ensures { result ≡ mask (is_noted t.now) left s.now at }
{
    if left == 0 {
        return 0;
    }
    let kind = get_or(s, at, 0);
    let shape = shape_of(kind);
    match shape {
        Shape::Unknown => 0,
        Shape::Part {
            body: _,
            parts: _,
            rule: _,
        } => 0,
        Shape::Retire { body } => 2 * mark_from(s, t, left - 1, at + 1 + body as usize),
        Shape::Declare { body, once: _ } => {
            let rest = mark_from(s, t, left - 1, at + 1 + body as usize);
            let id = get_or(s, at + ID, 0);
            if is_noted(t, id) {
                return 1 + 2 * rest;
            }
            2 * rest
        }
    }
}

// A bit for each of `left` name records at most from a place on: set where the record declares a name.
fn declared_from(s: &[u8], left: u8, at: usize) -> u32
    requires { (left ≤ 32) × (at + 256 * left ≤ 65536) }
    ensures { result ≡ mask every left s.now at }
{
    if left == 0 {
        return 0;
    }
    let kind = get_or(s, at, 0);
    let shape = shape_of(kind);
    match shape {
        Shape::Unknown => 0,
        Shape::Part {
            body: _,
            parts: _,
            rule: _,
        } => 0,
        Shape::Retire { body } => 2 * declared_from(s, left - 1, at + 1 + body as usize),
        Shape::Declare { body, once: _ } => {
            1 + 2 * declared_from(s, left - 1, at + 1 + body as usize)
        }
    }
}

// Which names a sheet uses, by the notes of its table.
pub(crate) fn uses_of(s: &[u8], t: &[u16]) -> Uses
    ensures { result ≡ uses_at s.now t.now }
{
    let mark = mark_from(s, t, MOST_NAMES, FIRST_RECORD);
    let declared = declared_from(s, MOST_NAMES, FIRST_RECORD);
    Uses {
        mark,
        used: u32::count_ones(mark),
        unused: u32::trailing_zeros(!mark & declared),
    }
}

// How many records of a sheet's heading declare a name.
#[tactic(auto, unfolding(crate::specs::Masks::declared_at))]
pub fn declared_count(s: &[u8]) -> usize
    ensures { result ≡ declared_at s.now }
{
    u32::count_ones(declared_from(s, MOST_NAMES, FIRST_RECORD)) as usize
}
