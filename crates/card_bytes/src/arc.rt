// The bytes of one move of a position.
ghost use Rattle.std.specs.Prelude.{◌≡◌, ◌+◌, ◌-◌, ◌%◌, ◌<◌, ◌≤◌, length};
ghost use Rattle.std.proofs.lemmas.List.Edits.{sets};
ghost use Rattle.dfa_classes.specs.Places.{number_at};
ghost use Rattle.card_bytes.specs.Places.{move_bytes};
ghost use Rattle.card_bytes.specs.InWords.{Edge, edge_bytes};
ghost use Rattle.card_bytes.specs.Kinds.{move_kind};

use dfa::words::at;
use dfa_classes::words::{edge_letter, edge_target};
use play_records::play::{VALUED_BYTES, put, write_record};
use sheet_records::limits::BYTES;

// The kind of a move without a value.
const MOVE: usize = 41;

// The kind of a move with a value.
const VALUED_MOVE: usize = 42;

// The kind of a move whose own record has so many bytes.
fn move_kind(width: usize) -> usize
    ensures { result ≡ move_kind width }
{
    if width < VALUED_BYTES {
        return MOVE;
    }
    VALUED_MOVE
}

// Writes the move of a letter to a position, from a place on: the place after it.
fn write_move(s: &mut [u8], place: usize, l: usize, to: usize) -> usize
    requires { place ≤ 4294967296 }
    ensures returned { result ≡ place + length (move_bytes l (to % 65536)) }
    ensures written { s.new ≡ sets s.old place (move_bytes l (to % 65536)) }
{
    let end = write_record(s, place + 1, l);
    put(s, place, move_kind(end - place - 1));
    put(s, end, to);
    put(s, end + 1, to / BYTES);
    end + 2
}

// The number of the position of class c.
fn position_of(words: &[u32], n: usize, c: usize) -> usize
    requires { (n ≤ 8192) × (n + c < length words.now) }
    ensures { result ≡ number_at n words.now c - 1 }
{
    at(words, n + c).saturating_sub(1)
}

// Writes the move by edge e, from a place on, where the edge does not lead to the dead class: the place after it.
pub(crate) fn write_edge(words: &[u32], n: usize, e: usize, s: &mut [u8], place: usize) -> usize
    requires { Edge n e words.now × (place ≤ 4294967296) }
    ensures returned { result ≡ place + length (edge_bytes words.now n e) }
    ensures written { s.new ≡ sets s.old place (edge_bytes words.now n e) }
{
    let c = at(words, edge_target(words, n, e));
    if c == at(words, n - 1) {
        return place;
    }
    write_move(s, place, edge_letter(words, n, e), position_of(words, n, c))
}
