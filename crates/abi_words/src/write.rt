// An answer written, where there is room for it; a refusal, which every service may give.
ghost use Rattle.std.specs.Prelude.{◌≡◌, ℕ, List, [], ◌∷◌, ◌++◌};
ghost use Rattle.abi_words.specs.Words.{kind_refused, low_half, high_half, no_uses};
ghost use Rattle.abi_words.specs.Words.{refusal_words, answered, status};

use crate::half::{high_half, low_half};
use crate::kind::REFUSED;
use sheet_records::refusal::Cause;

// How many words an answer has.
pub const ANSWER_WORDS: usize = 11;

// What a service returns, a number as the C interface has it: whether there is room for an answer, which is then written.
pub const NO_ROOM: u32 = 0;

const WRITTEN: u32 = 1;

// An answer as words: that of a service; or, by numbers, a refusal or that sheets are apart.
pub trait Worded {
    // Its words.
    ghost words: { Self → List ℕ };

    // Writes them, if there is room for them.
    fn tell(self, out: &mut [u32]) -> u32
        ensures returned { result ≡ status out.old }
        ensures written { out.new ≡ answered (words self) out.old };
}

// A refusal by its numbers, be they those of a reason and of sheets or not.
#[derive(Drop)]
pub struct Refused {
    pub number: u32,
    pub sheet: u32,
    pub place: usize,
}

impl Worded for Refused {
    ghost words = { λ x.
        (kind_refused ∷ x.number ∷ x.sheet ∷ low_half x.place ∷ high_half x.place ∷ []) ++ no_uses ++ no_uses };

    fn tell(self, out: &mut [u32]) -> u32 {
        answer_refusal(out, self.number, self.sheet, self.place)
    }
}

// Writes an answer, if there is room for it.
pub(crate) fn answer(out: &mut [u32], words: [u32; ANSWER_WORDS]) -> u32
    ensures returned { result ≡ status out.old }
    ensures written { out.new ≡ answered words out.old }
{
    if out.len() < ANSWER_WORDS {
        return NO_ROOM;
    }
    out[..ANSWER_WORDS].copy_from_slice(&words);
    WRITTEN
}

// Writes a refusal by its numbers, be they those of a reason and of sheets or not.
pub(crate) fn answer_refusal(out: &mut [u32], number: u32, sheet: u32, place: usize) -> u32
    ensures returned { result ≡ status out.old }
    ensures written { out.new
        ≡ answered ((kind_refused ∷ number ∷ sheet ∷ low_half place ∷ high_half place ∷ []) ++ no_uses ++ no_uses) out.old }
{
    let low = low_half(place);
    let high = high_half(place);
    answer(out, [REFUSED, number, sheet, low, high, 0, 0, 0, 0, 0, 0])
}

// Writes a refusal.
pub(crate) fn refuse(out: &mut [u32], x: Cause) -> u32
    ensures returned { result ≡ status out.old }
    ensures written { out.new ≡ answered (refusal_words x) out.old }
{
    answer_refusal(out, x.reason as u32, x.sheet as u32, x.place)
}
