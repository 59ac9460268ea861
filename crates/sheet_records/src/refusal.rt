// A refusal, and why it is one, with the numbers of refusals, all of them in this place. Document 01, "Three services";
// document 02 [3] for 16, [4] for 17, [13] for 18.
ghost use Rattle.std.specs.Prelude.{◌≡◌};
ghost use Rattle.sheet_records.specs.Refusal.{refusal, cause};

// Why something is refused, by the number of document 01: 1 to 11 and 16 of a sheet alone.
#[derive(Clone, Copy)]
pub enum Reason {
    TooLong = 1,
    CutShort,
    OutOfRange,
    IdTaken,
    IdUnknown,
    IdRetired,
    WrongType,
    TooDeep,
    TooManyNames,
    LeftOver,
    TooLarge,
    // The headings or the result types of two sheets differ.
    HeadingsDiffer,
    // There are too few working words.
    TooFewWords,
    // A space that is lent for an answer is too short: for a play, a card, a sheet or its list of changes.
    SpaceTooShort,
    // A play has a record of an unknown kind or one that is cut short.
    BadPlay,
    // An id is held by an enclosing binder.
    IdEnclosed,
    // Renumbering finds no id that is left.
    NoIdLeft,
    // A record offends against the profile.
    NotQuiet,
}

// The sheets that a refusal names, by their number.
#[derive(Clone, Copy)]
pub enum Sheets {
    Old,
    New,
    Both,
}

// A refusal within a sheet: why, and the place.
#[derive(Drop)]
pub struct Refusal {
    pub reason: Reason,
    pub place: usize,
}

// A refusal as a service gives it: why, the sheet and the place.
#[derive(Drop)]
pub struct Cause {
    pub reason: Reason,
    pub sheet: Sheets,
    pub place: usize,
}

// The refusal for a reason, at a place.
pub fn refuse(reason: Reason, place: usize) -> Refusal
    ensures { result ≡ refusal reason place }
{
    Refusal { reason, place }
}

// The refusal within a sheet, with the sheet.
pub fn of_sheet(refusal: Refusal, sheet: Sheets) -> Cause
    ensures { result ≡ cause refusal.reason sheet refusal.place }
{
    Cause {
        reason: refusal.reason,
        sheet,
        place: refusal.place,
    }
}
