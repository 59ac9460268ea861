// The answer of look.
ghost use Rattle.std.specs.Prelude.{◌≡◌, [], ◌∷◌, ◌++◌};
ghost use Rattle.abi_words.specs.Words.{low_half, high_half, uses_words, look_words, answered, status};

use crate::compare::{answer_apart, answer_names};
use crate::half::{high_half, low_half};
use crate::kind::{SAME, SO_FAR};
use crate::write::{Worded, refuse};
use serve_compare::{Looking, Outcome};
use sheet_judge::mark::Uses;
use sheet_records::refusal::Cause;

// Writes an answer that tells how many moves were looked through.
fn answer_depth(out: &mut [u32], kind: u32, a: u32, looked: usize, old: Uses, new: Uses) -> u32
    ensures returned { result ≡ status out.old }
    ensures written { out.new
        ≡ answered ((kind ∷ a ∷ low_half looked ∷ high_half looked ∷ 0 ∷ []) ++ uses_words old ++ uses_words new)
        out.old }
{
    let low = low_half(looked);
    let high = high_half(looked);
    answer_names(out, kind, a, low, high, old, new)
}

impl Worded for Result<Looking, Cause> {
    ghost words = { look_words };

    fn tell(self, out: &mut [u32]) -> u32 {
        match self {
            Ok(
                Looking {
                    outcome,
                    looked,
                    old,
                    new,
                },
            ) => match outcome {
                Outcome::Same => answer_depth(out, SAME, 0, looked, old, new),
                Outcome::Apart { sheet } => answer_apart(out, sheet as u32, looked, old, new),
                Outcome::SoFar => answer_depth(out, SO_FAR, 0, looked, old, new),
            },
            Err(x) => refuse(out, x),
        }
    }
}

// Writes the answer of look, or by numbers a refusal or that sheets are apart. Of one line, so that each service has a
// name.
pub fn answer_look<R: Worded>(out: &mut [u32], r: R) -> u32
    ensures returned { result ≡ status out.old }
    ensures written { out.new ≡ answered (R.words r) out.old }
{
    r.tell(out)
}
