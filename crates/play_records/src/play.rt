// The records of a play, and the letters of their moves.
ghost use Rattle.std.specs.Prelude.{◌≡◌, ◌+◌, ◌≤◌, ◌%◌, length, set, take, drop};
ghost use Rattle.std.proofs.lemmas.List.Edits.{sets};
ghost use Rattle.play_records.specs.Records.{parse};
ghost use Rattle.play_records.specs.Bytes.{width_of, counted, letter_from, first_letter, record_by, records_by};

use sheet_records::limits::BYTES;
use sheet_records::read::get_or;
use sheet_records::store;
use states_positions::moves::{MOVE_KINDS, VALUE};
use states_words::letters::{ARGUMENT_UNIT, ID_UNIT, KIND_UNIT, RANK_ZERO};

// Bytes of a record without a value, and of one with a value.
pub const BARE_BYTES: usize = 3;

pub const VALUED_BYTES: usize = 4;

// How many bytes a record of a kind has, 0 where there is no such kind.
pub fn width_of(kind: usize) -> usize
    ensures { result ≡ width_of kind }
{
    if kind < VALUE {
        return BARE_BYTES;
    }
    if kind < MOVE_KINDS {
        return VALUED_BYTES;
    }
    0
}

// How many records a play has, or the place of the first bad one.
pub fn count_moves(play: &[u8]) -> Result<usize, usize>
    ensures { result ≡ counted 0 (parse 0 play.now) }
{
    let mut at = 0;
    let mut count = 0;
    while at < play.len() {
        let w = width_of(get_or(play, at, 0) as usize);
        if w == 0 {
            return Err(at);
        }
        if play.len() - at < w {
            return Err(at);
        }
        at += w;
        count += 1;
    }
    Ok(count)
}

// The letter of a record's bytes.
fn letter_from(kind: u8, id: u8, arg: u8, value: u8) -> usize
    ensures { result ≡ letter_from kind id arg value }
{
    let k = kind as usize;
    let place = k * KIND_UNIT + id as usize * ID_UNIT + arg as usize * ARGUMENT_UNIT;
    if k < VALUE {
        return place;
    }
    place + (value as usize + RANK_ZERO) % BYTES
}

// The letter of the record with which the bytes begin.
pub fn first_letter(s: &[u8]) -> usize
    ensures { result ≡ first_letter s.now }
{
    letter_from(
        get_or(s, 0, 0),
        get_or(s, 1, 0),
        get_or(s, 2, 0),
        get_or(s, 3, 0),
    )
}

// Byte i becomes v, where there is such a byte.
pub fn put(s: &mut [u8], i: usize, v: usize)
    ensures { s.new ≡ set s.old i (v % 256) }
{
    store::put(s, i, (v % BYTES) as u8);
}

// Writes the record of a letter from a place on: the place after it.
pub fn write_record(s: &mut [u8], at: usize, l: usize) -> usize
    requires { at ≤ 4294967297 }
    ensures returned { result ≡ at + length (record_by l) }
    ensures written { s.new ≡ sets s.old at (record_by l) }
{
    put(s, at, l / KIND_UNIT);
    put(s, at + 1, l / ID_UNIT);
    put(s, at + 2, l / ARGUMENT_UNIT);
    if l / KIND_UNIT < VALUE {
        return at + BARE_BYTES;
    }
    put(s, at + 3, l % BYTES + RANK_ZERO);
    at + VALUED_BYTES
}

// Writes the records of the letters in the words from base on, len of them, from the start.
pub fn write_play(words: &[u32], base: usize, len: usize, s: &mut [u8])
    requires { (len ≤ 8193) × (base + len ≤ length words.now) }
    ensures { s.new
        ≡ sets s.old 0 (records_by (take len (drop base words.now))) }
{
    let mut at = 0;
    for letter in &words[base..base + len] {
        at = write_record(s, at, *letter as usize);
    }
}
