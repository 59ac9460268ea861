// The answer of compare.
ghost use Rattle.std.specs.Prelude.{◌≡◌, [], ◌∷◌, ◌++◌};
ghost use Rattle.abi_words.specs.Words.{kind_apart, low_half, high_half, uses_words};
ghost use Rattle.abi_words.specs.Words.{compare_words, answered, status};

use crate::half::{high_half, low_half};
use crate::kind::{APART, SAME};
use crate::write::{Worded, answer, refuse};
use serve_compare::Comparison;
use sheet_judge::mark::Uses;
use sheet_records::refusal::Cause;

// Writes an answer that tells of the names of two sheets.
pub(crate) fn answer_names(
    out: &mut [u32],
    kind: u32,
    a: u32,
    b: u32,
    c: u32,
    old: Uses,
    new: Uses,
) -> u32
    ensures returned { result ≡ status out.old }
    ensures written { out.new
        ≡ answered ((kind ∷ a ∷ b ∷ c ∷ 0 ∷ []) ++ uses_words old ++ uses_words new) out.old }
{
    answer(
        out,
        [
            kind, a, b, c, 0, old.mark, old.used, old.unused, new.mark, new.used, new.unused,
        ],
    )
}

// That two sheets are apart, by the number of a sheet, be it that of one or not.
#[derive(Drop)]
pub struct Apart {
    pub sheet: u32,
    pub moves: usize,
    pub old: Uses,
    pub new: Uses,
}

impl Worded for Apart {
    ghost words = { λ x.
        (kind_apart ∷ x.sheet ∷ low_half x.moves ∷ high_half x.moves ∷ 0 ∷ []) ++ uses_words x.old ++ uses_words x.new };

    fn tell(self, out: &mut [u32]) -> u32 {
        answer_apart(out, self.sheet, self.moves, self.old, self.new)
    }
}

// Writes the answer that two sheets are apart, by the number of a sheet, be it that of one or not.
pub(crate) fn answer_apart(out: &mut [u32], sheet: u32, moves: usize, old: Uses, new: Uses) -> u32
    ensures returned { result ≡ status out.old }
    ensures written { out.new
        ≡ answered
        ((kind_apart ∷ sheet ∷ low_half moves ∷ high_half moves ∷ 0 ∷ []) ++ uses_words old ++ uses_words new) out.old }
{
    let low = low_half(moves);
    let high = high_half(moves);
    answer_names(out, APART, sheet, low, high, old, new)
}

impl Worded for Result<Comparison, Cause> {
    ghost words = { compare_words };

    fn tell(self, out: &mut [u32]) -> u32 {
        match self {
            Ok(Comparison { found, old, new }) => match found {
                None => answer_names(out, SAME, 0, 0, 0, old, new),
                Some(first) => answer_apart(out, first.sheet as u32, first.moves, old, new),
            },
            Err(x) => refuse(out, x),
        }
    }
}

// Writes the answer of compare, or by numbers a refusal or that sheets are apart. Of one line, so that each service has a
// name.
pub fn answer_compare<R: Worded>(out: &mut [u32], r: R) -> u32
    ensures returned { result ≡ status out.old }
    ensures written { out.new ≡ answered (R.words r) out.old }
{
    r.tell(out)
}
