// The number of the procedure that a record uses.
ghost use Rattle.std.specs.Prelude.{◌≡◌, ◌<◌};
ghost use Rattle.sheet_records.specs.Standing.{standing_of};
ghost use Rattle.sheet_reader.specs.table.Number.{number_in, used_number};

use sheet_heads::head::Record;
use sheet_records::kind::USE;
use sheet_records::standing::Standing;

// The number of the procedure whose standing is `c`; 0 where it is that of anything else.
#[tactic(auto, unfolding(crate::specs::table::Number::number_in))]
fn number_in(c: u32) -> u16
    ensures { result ≡ number_in (standing_of c) }
{
    match Standing::from(c) {
        Standing::Free => 0,
        Standing::Retired => 0,
        Standing::Declared { place: _, once: _ } => 0,
        Standing::Variable {
            number: _,
            holds: _,
        } => 0,
        Standing::Parameter { number: _, ty: _ } => 0,
        Standing::Procedure { number, place: _ } => number,
    }
}

// The number of the procedure that the record uses; 0 where it uses none.
#[tactic(auto, unfolding(crate::specs::table::Number::used_number))]
pub(crate) fn used_number(r: Record) -> usize
    ensures number { result ≡ used_number r }
    ensures small { result < 65536 }
{
    if r.kind == USE {
        return number_in(r.b) as usize;
    }
    0
}
