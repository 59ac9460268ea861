// The refusals of both sheets together and of a play.
ghost use Rattle.std.specs.Prelude.{◌≡◌};
ghost use Rattle.sheet_records.specs.Refusal.{bad_play, both_sheets, cause, old_sheet};

use sheet_records::refusal::{Cause, Reason, Sheets, of_sheet, refuse};

// The refusal of both sheets together.
pub fn both_cause(reason: Reason) -> Cause
    ensures { result ≡ cause reason both_sheets 0 }
{
    of_sheet(refuse(reason, 0), Sheets::Both)
}

// The refusal of a play at a place.
pub(crate) fn play_cause(place: usize) -> Cause
    ensures { result ≡ cause bad_play old_sheet place }
{
    of_sheet(refuse(Reason::BadPlay, place), Sheets::Old)
}
