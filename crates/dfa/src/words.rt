// Lent words: reading one, storing one, clearing all.
ghost use Rattle.std.specs.Prelude.{◌≡◌, ◌<◌, ◌^◌, length, get_or, set, replicate};

// Word i.
pub fn at(s: &[u32], i: usize) -> usize
    requires { i < length s.now }
    ensures { result ≡ get_or s.now i 0 }
{
    s[i] as usize
}

// Word i becomes v.
pub fn put(s: &mut [u32], i: usize, v: usize)
    requires { (i < length s.old) × (v < 2 ^ 32) }
    ensures { s.new ≡ set s.old i v }
{
    s[i] = v as u32;
}

// Every word becomes 0.
pub fn clear(words: &mut [u32])
    ensures { words.new ≡ replicate (length words.old) 0 }
{
    words.fill(0);
}
