// Storing an item at a place, if there is one.
ghost use Rattle.std.specs.Prelude.{◌≡◌, set};

// The item at a place becomes v; past the end nothing changes.
pub fn put<T: Copy>(s: &mut [T], at: usize, v: T)
    ensures { s.new ≡ set s.old at v }
{
    if at < s.len() {
        s[at] = v;
    }
}
