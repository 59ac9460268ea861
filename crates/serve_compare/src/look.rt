// The service look.
ghost use Rattle.std.specs.Prelude.{◌≡◌};
ghost use Rattle.serve_compare.specs.Look.{look_answer, LookPromise};

use crate::examine::examine;
use crate::{Looking, Outcome};
use play_words::Difference;
use sheet_judge::mark::Uses;
use sheet_records::refusal::Cause;

// The answer, from what is found within `most` moves, S + T - 1, and the names that the old and the new sheet use.
fn answer(found: Option<Difference>, most: usize, whole: usize, old: Uses, new: Uses) -> Looking
    ensures { result ≡ look_answer found most whole old new }
{
    let (outcome, looked) = match found {
        Some(first) => (Outcome::Apart { sheet: first.sheet }, first.moves),
        None if most < whole => (Outcome::SoFar, most),
        None => (Outcome::Same, whole),
    };
    Looking {
        outcome,
        looked,
        old,
        new,
    }
}

// Whether some play of at most `most` moves tells two sheets apart: the first such play, and which sheet has it; how many
// moves were looked through; and the names that both use.
pub fn look(
    old: &[u8],
    new: &[u8],
    most: usize,
    words: &mut [u32],
    space: &mut [u8],
) -> Result<Looking, Cause>
    ensures { LookPromise old.now new.now most words.old space.old result
        words.new space.new }
{
    let x = examine(old, new, most, words, space)?;
    Ok(answer(x.found, most, x.whole, x.old, x.new))
}
