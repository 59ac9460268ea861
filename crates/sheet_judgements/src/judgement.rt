// Judgements of single bytes, one after the other: each is `Ok`, or the refusal's number and place.
ghost use Rattle.std.specs.Prelude.{◌≡◌, ◌+◌, ◌<◌};
ghost use Rattle.sheet_records.specs.Standing.{standing_of};
ghost use Rattle.sheet_judgements.specs.Judge.{and_then, below, unused, bound, hides, apart, earlier, unlike};
ghost use Rattle.sheet_judgements.specs.Judge.{parameter_id};
ghost use Rattle.sheet_judgements.specs.Judge.{pair, procedure_of};

use sheet_records::edition::Edition;
use sheet_records::kind::{COUNT, ID, PARAMETER_IDS, PARAMETER_TYPES, RESULT};
use sheet_records::limits::{COUNTS, IDS, NOT_THERE, TYPES};
use sheet_records::read::{get_or, standing_of};
use sheet_records::refusal::{Reason, Refusal, refuse};
use sheet_records::standing::{is_held, is_named};

// A byte below a limit.
#[tactic(auto, unfolding(crate::specs::Judge::below))]
pub fn judge_below(s: &[u8], at: usize, limit: u8) -> Result<(), Refusal>
    ensures { result ≡ below s.now at limit }
{
    if s.len() <= at {
        return Err(refuse(Reason::CutShort, s.len()));
    }
    if limit <= s[at] {
        return Err(refuse(Reason::OutOfRange, at));
    }
    Ok(())
}

// A byte of something that is not there.
#[tactic(auto, unfolding(crate::specs::Judge::unused))]
pub fn judge_unused(s: &[u8], at: usize) -> Result<(), Refusal>
    ensures { result ≡ unused s.now at }
{
    if s.len() <= at {
        return Err(refuse(Reason::CutShort, s.len()));
    }
    if s[at] == NOT_THERE {
        return Ok(());
    }
    Err(refuse(Reason::OutOfRange, at))
}

// The id of a binder, which is neither declared nor retired.
#[tactic(auto, unfolding(crate::specs::Judge::bound, crate::specs::Judge::and_then))]
fn judge_bound(s: &[u8], st: &[u32; 255], at: usize) -> Result<(), Refusal>
    ensures { result ≡ bound s.now st.now at }
{
    judge_below(s, at, IDS)?;
    let id = get_or(s, at, 0);
    if is_named(standing_of(st, id)) {
        return Err(refuse(Reason::IdTaken, at));
    }
    Ok(())
}

// Whether a binder that takes an id with standing `c` hides an enclosing one, by the rule of an edition.
#[tactic(auto, unfolding(crate::specs::Judge::hides))]
pub fn is_hiding(edition: Edition, c: u32) -> bool
    ensures { result ≡ hides edition (standing_of c) }
{
    match edition {
        Edition::Earlier => false,
        Edition::Present => is_held(c),
    }
}

// The id of a binder, which hides no enclosing one.
#[tactic(auto, unfolding(crate::specs::Judge::apart))]
fn judge_apart(edition: Edition, s: &[u8], st: &[u32; 255], at: usize) -> Result<(), Refusal>
    ensures { result ≡ apart edition s.now st.now at }
{
    let id = get_or(s, at, 0);
    if is_hiding(edition, standing_of(st, id)) {
        return Err(refuse(Reason::IdEnclosed, at));
    }
    Ok(())
}

// Whether one of the first j parameters of the procedure at a place has an id.
fn is_earlier(s: &[u8], place: usize, j: u8, id: u8) -> bool
    requires { place < 65536 }
    ensures { result ≡ earlier s.now place j id }
{
    for i in (0..j).rev() {
        if get_or(s, place + PARAMETER_IDS + 2 * (i as usize), 0) == id {
            return true;
        }
    }
    false
}

// The id of parameter j, which no earlier parameter has.
#[tactic(auto, unfolding(crate::specs::Judge::unlike))]
fn judge_unlike(s: &[u8], place: usize, j: u8) -> Result<(), Refusal>
    requires { place < 65536 }
    ensures { result ≡ unlike s.now place j }
{
    let at = place + PARAMETER_IDS + 2 * (j as usize);
    let id = get_or(s, at, 0);
    if is_earlier(s, place, j, id) {
        return Err(refuse(Reason::IdTaken, at));
    }
    Ok(())
}

// The id of parameter j: in no name record, no earlier parameter's, and hiding no enclosing binder.
#[tactic(auto, unfolding(crate::specs::Judge::parameter_id, crate::specs::Judge::and_then))]
fn judge_parameter_id(
    edition: Edition,
    s: &[u8],
    st: &[u32; 255],
    place: usize,
    j: u8,
) -> Result<(), Refusal>
    requires { place < 65536 }
    ensures { result ≡ parameter_id edition s.now st.now place j }
{
    let at = place + PARAMETER_IDS + 2 * (j as usize);
    judge_bound(s, st, at)?;
    judge_unlike(s, place, j)?;
    judge_apart(edition, s, st, at)
}

// Pair j of the procedure at a place: a parameter's id and type, or 255 255.
#[tactic(auto, unfolding(crate::specs::Judge::pair, crate::specs::Judge::and_then))]
fn judge_pair(
    edition: Edition,
    s: &[u8],
    st: &[u32; 255],
    place: usize,
    j: u8,
) -> Result<(), Refusal>
    requires { place < 65536 }
    ensures { result ≡ pair edition s.now st.now place j }
{
    let id_at = place + PARAMETER_IDS + 2 * (j as usize);
    let type_at = place + PARAMETER_TYPES + 2 * (j as usize);
    if j < get_or(s, place + COUNT, 0) {
        judge_parameter_id(edition, s, st, place, j)?;
        return judge_below(s, type_at, TYPES);
    }
    judge_unused(s, id_at)?;
    judge_unused(s, type_at)
}

// The four pairs of the procedure at a place.
#[tactic(auto, unfolding(crate::specs::Judge::and_then))]
fn judge_pairs(edition: Edition, s: &[u8], st: &[u32; 255], place: usize) -> Result<(), Refusal>
    requires { place < 65536 }
    ensures { result ≡ and_then (pair edition s.now st.now place 0)
        (and_then (pair edition s.now st.now place 1)
        (and_then (pair edition s.now st.now place 2)
        (pair edition s.now st.now place 3))) }
{
    judge_pair(edition, s, st, place, 0)?;
    judge_pair(edition, s, st, place, 1)?;
    judge_pair(edition, s, st, place, 2)?;
    judge_pair(edition, s, st, place, 3)
}

// The body of the procedure at a place: id, result type, count of parameters, pairs.
#[tactic(auto, unfolding(crate::specs::Judge::procedure_of, crate::specs::Judge::and_then))]
pub fn judge_procedure(
    edition: Edition,
    s: &[u8],
    st: &[u32; 255],
    place: usize,
) -> Result<(), Refusal>
    requires { place < 65536 }
    ensures { result ≡ procedure_of edition s.now st.now place }
{
    judge_bound(s, st, place + ID)?;
    judge_apart(edition, s, st, place + ID)?;
    judge_below(s, place + RESULT, TYPES)?;
    judge_below(s, place + COUNT, COUNTS)?;
    judge_pairs(edition, s, st, place)
}
