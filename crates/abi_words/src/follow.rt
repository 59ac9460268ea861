// The answer of follow.
ghost use Rattle.std.specs.Prelude.{◌≡◌};
ghost use Rattle.abi_words.specs.Words.{follow_words, answered, status};

use crate::half::{high_half, low_half};
use crate::kind::FOLLOWS;
use crate::write::{Worded, answer, refuse};
use serve_compare::Following;
use sheet_records::refusal::Cause;

impl Worded for Result<Following, Cause> {
    ghost words = { follow_words };

    fn tell(self, out: &mut [u32]) -> u32 {
        match self {
            Ok(Following { count, complete }) => {
                let low = low_half(count);
                let high = high_half(count);
                if complete {
                    return answer(out, [FOLLOWS, 1, low, high, 0, 0, 0, 0, 0, 0, 0]);
                }
                answer(out, [FOLLOWS, 0, low, high, 0, 0, 0, 0, 0, 0, 0])
            }
            Err(x) => refuse(out, x),
        }
    }
}

// Writes the answer of follow, or a refusal by numbers. Of one line, so that each service has a name.
pub fn answer_follow<R: Worded>(out: &mut [u32], r: R) -> u32
    ensures returned { result ≡ status out.old }
    ensures written { out.new ≡ answered (R.words r) out.old }
{
    r.tell(out)
}
