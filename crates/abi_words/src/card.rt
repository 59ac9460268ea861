// The answer of card.
ghost use Rattle.std.specs.Prelude.{◌≡◌};
ghost use Rattle.abi_words.specs.Words.{card_words, answered, status};

use crate::half::{high_half, low_half};
use crate::kind::CARD;
use crate::write::{Worded, answer, refuse};
use sheet_records::refusal::Cause;

impl Worded for Result<usize, Cause> {
    ghost words = { card_words };

    fn tell(self, out: &mut [u32]) -> u32 {
        match self {
            Ok(length) => {
                let low = low_half(length);
                let high = high_half(length);
                answer(out, [CARD, 0, low, high, 0, 0, 0, 0, 0, 0, 0])
            }
            Err(x) => refuse(out, x),
        }
    }
}

// Writes the answer of card, or a refusal by numbers. Of one line, so that each service has a name.
pub fn answer_card<R: Worded>(out: &mut [u32], r: R) -> u32
    ensures returned { result ≡ status out.old }
    ensures written { out.new ≡ answered (R.words r) out.old }
{
    r.tell(out)
}
