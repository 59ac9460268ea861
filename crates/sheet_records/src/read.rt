// Reading an item or a standing at a place, past the end as well.
ghost use Rattle.std.specs.Prelude.{◌≡◌, get_or};

// How many numbers a word of 16 bits, and one of 32 bits, can be.
pub const SHORTS: usize = 65536;

pub const LONGS: usize = 4294967296;

// The item at a place, `none` past the end.
pub fn get_or<T: Copy>(s: &[T], at: usize, none: T) -> T
    ensures { result ≡ get_or s.now at none }
{
    s.get(at).copied().unwrap_or(none)
}

// The standing of an id, 0 for 255. A name over get_or, as slot_at in term_closing is one for a slot.
pub fn standing_of(st: &[u32; 255], id: u8) -> u32
    ensures { result ≡ get_or st.now id 0 }
{
    get_or(st, id as usize, 0)
}
