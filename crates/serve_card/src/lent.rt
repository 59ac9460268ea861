// How many bytes card asks to be lent, and why it refuses what is lent.
ghost use Rattle.std.specs.Prelude.{◌≡◌, ◌≤◌};
ghost use Rattle.serve_conditions.specs.Pair.{reason_of};
ghost use Rattle.serve_card.specs.Promise.{lent_refusal, space_for};

use language::Numbers;
use serve_conditions::lent::words_asked;
use sheet_records::limits::EARLIER_Z;
use sheet_records::refusal::Reason;

// The bytes of card space for each unit of size: up to document 01's greatest Z, and above it.
const FEW_BYTES: usize = 128;

const MORE_BYTES: usize = 512;

// The bytes that are asked for, for a sheet of this size.
fn space_asked(n: Numbers, size: usize) -> usize
    requires { size ≤ 4096 }
    ensures { result ≡ space_for n size }
{
    if EARLIER_Z < n.z {
        return MORE_BYTES * size;
    }
    FEW_BYTES * size
}

// Why an accepted sheet of this size is refused: 13, then 14.
pub(crate) fn lent_reason(n: Numbers, words: usize, space: usize, size: usize) -> Option<Reason>
    requires { size ≤ 4096 }
    ensures { result ≡ reason_of (lent_refusal n words space size) }
{
    if words < words_asked(n, size) {
        return Some(Reason::TooFewWords);
    }
    if space < space_asked(n, size) {
        return Some(Reason::SpaceTooShort);
    }
    None
}
