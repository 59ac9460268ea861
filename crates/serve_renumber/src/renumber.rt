// The service renumber.
ghost use Rattle.std.specs.Prelude.{◌≡◌, ◌≤◌, length};
ghost use Rattle.sheet_records.specs.Refusal.{cause, both_sheets, no_id_left, old_sheet, space_too_short};
ghost use Rattle.serve_renumber.specs.Outcome.{RenumberPromise};
ghost use Rattle.serve_renumber.specs.Found.{AcceptedAt, Renumbers, EarlierJudged};

use crate::bytes::copy;
use crate::step::Step;
use crate::work::renumber_copy;
use sheet_judge::judge::{Judgement, judge_sheet};
use sheet_records::edition::Edition;
use sheet_records::limits::MOST_BYTES;
use sheet_records::refusal::{Cause, Reason, Refusal, Sheets, of_sheet, refuse};
use sheet_rows::row::TABLE;

// The bytes of a list space, and of a change in it.
pub(crate) const LIST: usize = 1020;

pub const CHANGE: usize = 4;

// Judges a sheet by the earlier rule.
fn judge_earlier(s: &[u8]) -> Result<Judgement, Refusal>
    ensures { EarlierJudged s.now result }
{
    let mut t = [0u16; TABLE];
    judge_sheet(Edition::Earlier, s, &mut t)
}

// The refusal of an output or a list space that is too short.
fn too_short() -> Cause
    ensures { result ≡ cause space_too_short both_sheets 0 }
{
    of_sheet(refuse(Reason::SpaceTooShort, 0), Sheets::Both)
}

// The refusal at the place of an id byte for which no id is left.
fn no_id(place: usize) -> Cause
    ensures { result ≡ cause no_id_left old_sheet place }
{
    of_sheet(refuse(Reason::NoIdLeft, place), Sheets::Old)
}

// Renumbers an accepted sheet whose term begins at the root. Nothing lent is written before it is known that no id is
// wanting.
fn renumber_accepted(s: &[u8], root: usize, out: &mut [u8], list: &mut [u8]) -> Result<u32, Cause>
    requires { AcceptedAt s.now root × (length s.now ≤ length out.old) × (1020 ≤ length list.old) }
    ensures { Renumbers s.now root result out.old out.new list.old
        list.new }
{
    let mut bytes = [0u8; MOST_BYTES];
    let mut changes = [0u8; LIST];
    let done = renumber_copy(s, root, &mut bytes, &mut changes).map_err(no_id)?;
    copy(&bytes, out, s.len());
    copy(&changes, list, CHANGE * done.changes);
    Ok(done.changes as u32)
}

// The service renumber: the sheet in which each inner name that hides an outer one has another id, the changes, and
// their number; or why it is refused.
pub fn renumber(s: &[u8], out: &mut [u8], list: &mut [u8]) -> Result<u32, Cause>
    ensures { RenumberPromise s.now result out.old out.new list.old
        list.new }
{
    let x = judge_earlier(s);
    // `let .. else`, not `?`: the form of document 01 in which the answer is taken apart and the refusal handed on.
    let Ok(judgement) = x else {
        return Err(of_sheet(x.err().unwrap(), Sheets::Old));
    };
    if out.len() < s.len() {
        return Err(too_short());
    }
    if list.len() < LIST {
        return Err(too_short());
    }
    renumber_accepted(s, judgement.root, out, list)
}
