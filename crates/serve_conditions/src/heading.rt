// Headings: all bytes of a sheet up to its term.
ghost use Rattle.std.specs.Prelude.{◌≡◌};
ghost use Rattle.serve_conditions.specs.Pair.{same_first, matching};

use sheet_records::read::get_or;

// Whether the first n bytes are the same.
fn same_first(a: &[u8], b: &[u8], n: usize) -> bool
    ensures { result ≡ same_first n a.now b.now }
{
    for i in 0..n {
        if get_or(a, i, 0) != get_or(b, i, 0) {
            return false;
        }
    }
    true
}

// Whether the headings, which end at the places of the terms, and the result types a and b are the same.
pub fn alike(old: &[u8], new: &[u8], root: usize, other: usize, a: u8, b: u8) -> bool
    ensures { result ≡ matching old.now new.now root other a b }
{
    if root != other {
        return false;
    }
    if !same_first(old, new, root) {
        return false;
    }
    a == b
}
