// How many working words follow, compare, look and card ask to be lent.
ghost use Rattle.std.specs.Prelude.{◌≡◌, ◌≤◌};
ghost use Rattle.serve_conditions.specs.Lent.{words_asked};

use language::Numbers;
use sheet_records::limits::EARLIER_Z;

// The words for each state: up to document 01's greatest Z, and above it.
const FEW_WORDS: usize = 32;

const MORE_WORDS: usize = 128;

// The working words that are asked for, for sizes that add up to `size`.
pub fn words_asked(n: Numbers, size: usize) -> usize
    requires { size ≤ 8194 }
    ensures { result ≡ words_asked n size }
{
    if EARLIER_Z < n.z {
        return MORE_WORDS * (size + 1);
    }
    FEW_WORDS * (size + 1)
}
