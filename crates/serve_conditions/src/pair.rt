// Two accepted sheets together: 12, then 13, then 14.
ghost use Rattle.std.specs.Prelude.{◌≡◌, ◌<◌, ◌≤◌};
ghost use Rattle.serve_conditions.specs.Pair.{pair_refusal, reason_of};

use crate::lent::words_asked;
use language::Numbers;
use sheet_records::refusal::Reason;

// Bytes of play space for each move.
const BYTES_A_MOVE: usize = 4;

// Why two accepted sheets are refused, whose sizes add up to `size`: 12, then 13, then 14.
pub fn pair_reason(
    matching: bool,
    n: Numbers,
    words: usize,
    space: usize,
    size: usize,
) -> Option<Reason>
    requires { (0 < size) × (size ≤ 8194) }
    ensures { result ≡ reason_of (pair_refusal matching n words space size) }
{
    if !matching {
        return Some(Reason::HeadingsDiffer);
    }
    if words < words_asked(n, size) {
        return Some(Reason::TooFewWords);
    }
    if space < BYTES_A_MOVE * (size - 1) {
        return Some(Reason::SpaceTooShort);
    }
    None
}
