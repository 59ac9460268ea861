// The answer of renumber.
ghost use Rattle.std.specs.Prelude.{◌≡◌};
ghost use Rattle.abi_words.specs.Words.{renumber_words, answered, status};

use crate::kind::RENUMBERED;
use crate::write::{Worded, answer, refuse};
use sheet_records::refusal::Cause;

impl Worded for Result<u32, Cause> {
    ghost words = { renumber_words };

    fn tell(self, out: &mut [u32]) -> u32 {
        match self {
            Ok(changes) => { answer(out, [RENUMBERED, changes, 0, 0, 0, 0, 0, 0, 0, 0, 0]) }
            Err(x) => refuse(out, x),
        }
    }
}

// Writes the answer of renumber, or a refusal by numbers. Of one line, so that each service has a name.
pub fn answer_renumber<R: Worded>(out: &mut [u32], r: R) -> u32
    ensures returned { result ≡ status out.old }
    ensures written { out.new ≡ answered (R.words r) out.old }
{
    r.tell(out)
}
