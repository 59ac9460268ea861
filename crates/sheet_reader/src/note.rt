// The notes in a table of parts: after the rows a word for each byte, which says whether a use of the declared name
// with that id was read.
ghost use Rattle.std.specs.Prelude.{◌≡◌};
ghost use Rattle.sheet_records.specs.Standing.{standing_of};
ghost use Rattle.sheet_reader.specs.table.Notes.{is_name_standing, noted, is_noted};

use sheet_heads::head::Record;
use sheet_records::kind::USE;
use sheet_records::standing::{FIRST_VARIABLE, RETIRED};
use sheet_records::store::put;
use sheet_rows::row::NOTES;

// The note of a name that is used.
const NOTED: u16 = 1;

// Whether a standing is that of a declared name.
fn is_declared(c: u32) -> bool
    ensures { result ≡ is_name_standing (standing_of c) }
{
    if c <= RETIRED {
        return false;
    }
    c < FIRST_VARIABLE
}

// Notes the use of a declared name, if the record is one.
pub(crate) fn note_use(t: &mut [u16], r: Record)
    ensures { t.new ≡ noted r t.old }
{
    if r.kind == USE {
        if is_declared(r.b) {
            put(t, NOTES + r.a as usize, NOTED);
        }
    }
}

// Whether a use of the name with an id is noted.
#[tactic(auto, unfolding(crate::specs::table::Notes::is_noted))]
pub fn is_noted(t: &[u16], id: u8) -> bool
    ensures { result ≡ is_noted t.now id }
{
    let at = NOTES + id as usize;
    if at < t.len() {
        return t[at] == NOTED;
    }
    false
}
