// Bytes and words at a place, past the end as well, as numbers. Those of a byte and those of a word promise and ask
// different bounds; one over the type of an item could say them only by that type's own Into and TryFrom.
ghost use Rattle.std.specs.Prelude.{◌≡◌, ◌++◌, ◌≤◌, ◌<◌, length, get_or, set, take, drop};

use sheet_records::read::get_or;
use sheet_records::store;

// The byte at a place, 0 past the end.
pub(crate) fn byte(s: &[u8], i: usize) -> usize
    ensures { (result ≡ get_or s.now i 0) × (result < 256) }
{
    get_or(s, i, 0) as usize
}

// The byte at a place becomes v.
pub(crate) fn put(s: &mut [u8], i: usize, v: usize)
    requires { v < 256 }
    ensures { s.new ≡ set s.old i v }
{
    store::put(s, i, v as u8);
}

// The word at a place, 0 past the end.
pub(crate) fn word(t: &[u16], i: usize) -> usize
    ensures { (result ≡ get_or t.now i 0) × (result < 65536) }
{
    get_or(t, i, 0) as usize
}

// The word at a place becomes v.
pub(crate) fn put_word(t: &mut [u16], i: usize, v: usize)
    requires { v < 65536 }
    ensures { t.new ≡ set t.old i v }
{
    store::put(t, i, v as u16);
}

// The first n bytes of one slice become those of another.
pub(crate) fn copy(from: &[u8], to: &mut [u8], n: usize)
    requires { (n ≤ length from.now) × (n ≤ length to.old) }
    ensures { to.new ≡ take n from.now ++ drop n to.old }
{
    to[..n].copy_from_slice(&from[..n]);
}
