// A number in two words.
ghost use Rattle.std.specs.Prelude.{◌≡◌};
ghost use Rattle.abi_words.specs.Words.{low_half, high_half};

use sheet_records::read::LONGS;

// The low 32 bits of a number.
pub(crate) fn low_half(v: usize) -> u32
    ensures { result ≡ low_half v }
{
    (v % LONGS) as u32
}

// The high 32 bits of a number.
pub(crate) fn high_half(v: usize) -> u32
    ensures { result ≡ high_half v }
{
    (v / LONGS) as u32
}
