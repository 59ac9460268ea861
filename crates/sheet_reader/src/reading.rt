// A whole sheet: its first two bytes, its names, its term and its end.
ghost use Rattle.std.specs.Prelude.{◌≡◌};
ghost use Rattle.sheet_reader.specs.Reader.{whole_of, numbers_at};
ghost use Rattle.sheet_reader.specs.table.Fill.{ReadsSheet, closed_reading};

use crate::names::{Reading, read_names};
use language::Numbers;
use sheet_records::edition::Edition;
use sheet_records::limits::{FIRST_RECORD, GREATEST_RULE, GREATEST_Z, MOST_BYTES, MOST_NAMES};
use sheet_records::read::get_or;
use sheet_records::refusal::{Reason, Refusal, refuse};

// Nothing after the term.
#[tactic(auto, unfolding(crate::specs::table::Fill::closed_reading))]
fn close_sheet(s: &[u8], x: Result<Reading, Refusal>) -> Result<Reading, Refusal>
    ensures { result ≡ closed_reading s.now x }
{
    // `let .. else`, not `?`: the form of document 01 in which a refusal is handed on.
    let Ok(sheet) = x else {
        return x;
    };
    if sheet.next < s.len() {
        return Err(refuse(Reason::LeftOver, sheet.next));
    }
    Ok(sheet)
}

// Reads a whole sheet by the rule of an edition, and leaves the rows of its parts in the table.
pub fn read_sheet(edition: Edition, s: &[u8], t: &mut [u16]) -> Result<Reading, Refusal>
    ensures { ReadsSheet (numbers_at s.now) (whole_of edition s.now) result
        t.old t.new }
{
    if MOST_BYTES < s.len() {
        return Err(refuse(Reason::TooLong, MOST_BYTES));
    }
    if s.len() == 0 {
        return Err(refuse(Reason::CutShort, s.len()));
    }
    let z = s[0];
    if z == 0 {
        return Err(refuse(Reason::OutOfRange, 0));
    }
    if GREATEST_Z < z {
        return Err(refuse(Reason::OutOfRange, 0));
    }
    if s.len() <= 1 {
        return Err(refuse(Reason::CutShort, s.len()));
    }
    let rule = s[1];
    if GREATEST_RULE < rule {
        return Err(refuse(Reason::OutOfRange, 1));
    }
    let n = Numbers { z, rule };
    let st = [0u32; 255];
    let x = read_names(edition, s, &st, t, n, MOST_NAMES, FIRST_RECORD);
    close_sheet(s, x)
}

// The range and the rule of a sheet.
pub fn numbers_of(s: &[u8]) -> Numbers
    ensures { result ≡ numbers_at s.now }
{
    let z = get_or(s, 0, 0);
    let rule = get_or(s, 1, 0);
    Numbers { z, rule }
}
