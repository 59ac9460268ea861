// The answer of check.
ghost use Rattle.std.specs.Prelude.{◌≡◌};
ghost use Rattle.abi_words.specs.Words.{check_words, answered, status};

use crate::kind::ACCEPTED;
use crate::write::{Worded, answer, refuse};
use sheet_judge::check::Checked;
use sheet_records::refusal::Cause;

impl Worded for Result<Checked, Cause> {
    ghost words = { check_words };

    fn tell(self, out: &mut [u32]) -> u32 {
        match self {
            Ok(Checked { ty, size, uses: u }) => {
                let t = ty as u32;
                answer(
                    out,
                    [ACCEPTED, t, size, 0, 0, u.mark, u.used, u.unused, 0, 0, 0],
                )
            }
            Err(x) => refuse(out, x),
        }
    }
}

// Writes the answer of check, or a refusal by numbers. Of one line, so that each service has a name.
pub fn answer_check<R: Worded>(out: &mut [u32], r: R) -> u32
    ensures returned { result ≡ status out.old }
    ensures written { out.new ≡ answered (R.words r) out.old }
{
    r.tell(out)
}
