// The bytes of the positions.
ghost use Rattle.std.specs.Prelude.{cond, ◌≡◌, ◌+◌, ◌*◌, ◌<◌, ◌≤◌, eqb, length};
ghost use Rattle.std.proofs.lemmas.List.Edits.{sets};
ghost use Rattle.card_bytes.specs.InWords.{Legible, States, state_bytes, position_bytes, positions_bytes};

use crate::arc::write_edge;
use dfa::words::at;
use dfa_classes::words::first_edge;
use play_records::play::put;

// The kind of a position.
const POSITION: usize = 40;

// What stands after it: 1 for the end, else 0.
const END: usize = 1;

const NO_END: usize = 0;

// The byte of the state p, where f is the end.
fn end_byte(p: usize, f: usize) -> usize
    ensures { result ≡ cond (eqb p f) 1 0 }
{
    if p == f {
        return END;
    }
    NO_END
}

// Writes the moves by the edges of the state p, from a place on: the place after them.
fn write_edges(words: &[u32], n: usize, p: usize, s: &mut [u8], place: usize) -> usize
    requires { Legible n words.now × ((p < n) × (place + length (state_bytes words.now n p) ≤ 4294967296)) }
    ensures returned { result ≡ place + length (state_bytes words.now n p) }
    ensures written { s.new ≡ sets s.old place (state_bytes words.now n p) }
{
    let end = first_edge(words, n, p + 1);
    let mut i = place;
    for e in first_edge(words, n, p)..end {
        i = write_edge(words, n, e, s, i);
    }
    i
}

// Writes the position of a class that the state p is in, f the end, from a place on: the place after it.
fn write_position(words: &[u32], n: usize, f: usize, p: usize, s: &mut [u8], place: usize) -> usize
    requires { Legible n words.now × ((p < n) × (place + length (position_bytes words.now n f p) ≤ 4294967296)) }
    ensures returned { result ≡ place + length (position_bytes words.now n f p) }
    ensures written { s.new
        ≡ sets s.old place (position_bytes words.now n f p) }
{
    put(s, place, POSITION);
    put(s, place + 1, end_byte(p, f));
    write_edges(words, n, p, s, place + 2)
}

// Writes the positions with the numbers from 0 to count, from a place on: the place after them.
pub fn write_positions(
    words: &[u32],
    n: usize,
    f: usize,
    count: usize,
    s: &mut [u8],
    place: usize,
) -> usize
    requires { Legible n words.now × (States n count words.now
        × (place + length (positions_bytes words.now n f count 0) ≤ 4294967296)) }
    ensures returned { result ≡ place + length (positions_bytes words.now n f count 0) }
    ensures written { s.new
        ≡ sets s.old place (positions_bytes words.now n f count 0) }
{
    let mut i = place;
    for k in 0..count {
        let p = at(words, 2 * n + k);
        i = write_position(words, n, f, p, s, i);
    }
    i
}
