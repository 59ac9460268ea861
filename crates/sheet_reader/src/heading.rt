// The judgement of name records.
ghost use Rattle.std.specs.Prelude.{◌≡◌, ◌+◌, ◌<◌, get_or, set};
ghost use Rattle.sheet_reader.specs.Heading.{fresh, argument, arguments, declare_of};

use sheet_judgements::judgement::{judge_below, judge_unused};
use sheet_parts::scope::with_standing;
use sheet_records::limits::{COUNTS, IDS, TYPES};
use sheet_records::read::{get_or, standing_of};
use sheet_records::refusal::{Reason, Refusal, refuse};
use sheet_records::standing::FREE;

// An id that is neither declared nor retired.
#[tactic(auto, unfolding(crate::specs::Heading::fresh, sheet_judgements::specs::Judge::and_then))]
pub(crate) fn judge_fresh(s: &[u8], st: &[u32; 255], at: usize) -> Result<(), Refusal>
    ensures { result ≡ fresh s.now st.now at }
{
    judge_below(s, at, IDS)?;
    let id = get_or(s, at, 0);
    if standing_of(st, id) == FREE {
        return Ok(());
    }
    Err(refuse(Reason::IdTaken, at))
}

// The type of argument j of the record at a place.
#[tactic(auto, unfolding(crate::specs::Heading::argument))]
fn judge_argument(s: &[u8], at: usize, j: u8) -> Result<(), Refusal>
    requires { at < 65536 }
    ensures { result ≡ argument s.now at j }
{
    let place = at + 4 + j as usize;
    if j < get_or(s, at + 3, 0) {
        return judge_below(s, place, TYPES);
    }
    judge_unused(s, place)
}

// The four argument types of the record at a place.
#[tactic(auto, unfolding(sheet_judgements::specs::Judge::and_then))]
fn judge_arguments(s: &[u8], at: usize) -> Result<(), Refusal>
    requires { at < 65536 }
    ensures { result ≡ arguments s.now at }
{
    judge_argument(s, at, 0)?;
    judge_argument(s, at, 1)?;
    judge_argument(s, at, 2)?;
    judge_argument(s, at, 3)
}

// The body of the declare record at a place: id, result type, count, argument types.
#[tactic(auto, unfolding(crate::specs::Heading::declare_of, sheet_judgements::specs::Judge::and_then))]
pub(crate) fn judge_declare(s: &[u8], st: &[u32; 255], at: usize) -> Result<(), Refusal>
    requires { at < 65536 }
    ensures { result ≡ declare_of s.now st.now at }
{
    judge_fresh(s, st, at + 1)?;
    judge_below(s, at + 2, TYPES)?;
    judge_below(s, at + 3, COUNTS)?;
    judge_arguments(s, at)
}

// The standings after the name record at a place, whose id gets standing c.
pub(crate) fn registered(s: &[u8], st: &[u32; 255], at: usize, c: u32) -> [u32; 255]
    requires { at < 65536 }
    ensures { result ≡ set st.now (get_or s.now (at + 1) 0) c }
{
    let id = get_or(s, at + 1, 0);
    let all = *st;
    with_standing(all, id, c)
}
