// The lines, written at a cursor: each function answers the place after what it has written.
ghost use Rattle.std.specs.Prelude.{◌≡◌, ◌≤◌, length, drop};
ghost use Rattle.language.specs.Number.{from_byte};
ghost use Rattle.sheet_reader.specs.Reader.{read_sheet};
ghost use Rattle.print_text.specs.Page.{page, pushes};
ghost use Rattle.print_text.specs.Text.{sheet_name, refused_text, size_in, declared_of, sizes_text, names_text, uses_text};
ghost use Rattle.print_text.specs.Text.{sheets_text, apart_text, signed_digits, value_text, move_text, first_move};
ghost use Rattle.print_text.specs.Text.{first_width, moves_text};

use crate::write::{decimal, text};
use play_records::play::{BARE_BYTES, VALUED_BYTES};
use sheet_judge::check::check;
use sheet_judge::mark::{Uses, declared_count};
use sheet_records::limits::BYTES;
use sheet_records::read::get_or;
use sheet_records::refusal::{Cause, Sheets};

// The first kind of move that has a value.
const VALUE: u8 = states_positions::moves::VALUE as u8;

// The first byte that stands for a number below 0, in two's complement.
const NEGATIVE: u8 = 128;

// What is printed of a sheet beside the names that it uses: its size, and how many names it declares.
#[derive(Drop)]
struct Figures {
    size: usize,
    declared: usize,
}

// The name of a sheet.
#[tactic(auto, unfolding(crate::specs::Text::sheet_name))]
fn sheet_name(out: &mut [u8], at: usize, sheet: Sheets) -> usize
    ensures { page out.new result ≡ pushes (sheet_name sheet) (page out.old at) }
{
    match sheet {
        Sheets::Old => text(out, at, b"old"),
        Sheets::New => text(out, at, b"new"),
        Sheets::Both => text(out, at, b"both"),
    }
}

// A refusal: number, sheet and place.
pub fn refused(out: &mut [u8], at: usize, x: Cause) -> usize
    ensures { page out.new result ≡ pushes (refused_text x) (page out.old at) }
{
    let a = text(out, at, b"refused ");
    let b = decimal(out, a, x.reason as usize);
    let c = text(out, b, b" ");
    let d = sheet_name(out, c, x.sheet);
    let e = text(out, d, b" ");
    let f = decimal(out, e, x.place);
    text(out, f, b"\n")
}

// The size of a sheet and how many names it declares, where it is accepted, else 0 and 0.
fn figures_of(s: &[u8]) -> Figures
    ensures size { result.size ≡ size_in (read_sheet s.now) }
    ensures declared { result.declared ≡ declared_of (read_sheet s.now) }
{
    let Ok(checked) = check(s) else {
        return Figures {
            size: 0,
            declared: 0,
        };
    };
    Figures {
        size: checked.size as usize,
        declared: declared_count(s),
    }
}

// The sizes of two sheets.
fn sizes(out: &mut [u8], at: usize, old: usize, new: usize) -> usize
    ensures { page out.new result ≡ pushes (sizes_text old new) (page out.old at) }
{
    let a = text(out, at, b"old ");
    let b = decimal(out, a, old);
    let c = text(out, b, b" new ");
    let d = decimal(out, c, new);
    text(out, d, b"\n")
}

// The names that a sheet uses, of those that it declares.
fn names(out: &mut [u8], at: usize, used: usize, declared: usize) -> usize
    ensures { page out.new result ≡ pushes (names_text used declared) (page out.old at) }
{
    let a = decimal(out, at, used);
    let b = text(out, a, b" of ");
    decimal(out, b, declared)
}

// The names that the old sheet uses, of those that it declares, and those of the new one.
fn uses(
    out: &mut [u8],
    at: usize,
    used: usize,
    declared: usize,
    used2: usize,
    declared2: usize,
) -> usize
    ensures { page out.new result
        ≡ pushes (uses_text used declared used2 declared2) (page out.old at) }
{
    let a = text(out, at, b"uses ");
    let b = names(out, a, used, declared);
    let c = text(out, b, b" and ");
    let d = names(out, c, used2, declared2);
    text(out, d, b"\n")
}

// The lines of two sheets: their sizes, and the names that they use of those that they declare.
pub fn sheets(out: &mut [u8], at: usize, old: &[u8], new: &[u8], first: Uses, second: Uses) -> usize
    ensures { page out.new result
        ≡ pushes (sheets_text old.now new.now first second) (page out.old at) }
{
    let a = figures_of(old);
    let b = figures_of(new);
    let next = sizes(out, at, a.size, b.size);
    uses(
        out,
        next,
        first.used as usize,
        a.declared,
        second.used as usize,
        b.declared,
    )
}

// The sheet that has the play, and its number of moves.
pub fn apart(out: &mut [u8], at: usize, sheet: Sheets, moves: usize) -> usize
    ensures { page out.new result ≡ pushes (apart_text sheet moves) (page out.old at) }
{
    let a = text(out, at, b"apart in ");
    let b = sheet_name(out, a, sheet);
    let c = text(out, b, b" ");
    let d = decimal(out, c, moves);
    text(out, d, b"\n")
}

// The number that a byte stands for, in two's complement.
fn signed(out: &mut [u8], at: usize, b: u8) -> usize
    ensures { page out.new result ≡ pushes (signed_digits (from_byte b)) (page out.old at) }
{
    if b < NEGATIVE {
        return decimal(out, at, b as usize);
    }
    let next = text(out, at, b"-");
    decimal(out, next, BYTES - b as usize)
}

// The value of a move, where its kind has one.
fn value(out: &mut [u8], at: usize, kind: u8, b: u8) -> usize
    ensures { page out.new result ≡ pushes (value_text kind b) (page out.old at) }
{
    if kind < VALUE {
        return at;
    }
    let next = text(out, at, b" ");
    signed(out, next, b)
}

// A move.
fn move_line(out: &mut [u8], at: usize, kind: u8, id: u8, argument: u8, b: u8) -> usize
    ensures { page out.new result
        ≡ pushes (move_text kind id argument b) (page out.old at) }
{
    let x = decimal(out, at, kind as usize);
    let y = text(out, x, b" ");
    let z = decimal(out, y, id as usize);
    let u = text(out, z, b" ");
    let v = decimal(out, u, argument as usize);
    let w = value(out, v, kind, b);
    text(out, w, b"\n")
}

// The move with whose record the bytes begin.
fn first_move(out: &mut [u8], at: usize, s: &[u8]) -> usize
    ensures { page out.new result ≡ pushes (first_move s.now) (page out.old at) }
{
    move_line(
        out,
        at,
        get_or(s, 0, 0),
        get_or(s, 1, 0),
        get_or(s, 2, 0),
        get_or(s, 3, 0),
    )
}

// The place after the record at a place, at most the end.
fn after(s: &[u8], place: usize) -> usize
    requires { place ≤ length s.now }
    ensures within { result ≤ length s.now }
    ensures rest { drop result s.now
        ≡ drop (first_width (drop place s.now)) (drop place s.now) }
{
    let left = s.len() - place;
    if get_or(s, place, 0) < VALUE {
        if left < BARE_BYTES {
            return s.len();
        }
        return place + BARE_BYTES;
    }
    if left < VALUED_BYTES {
        return s.len();
    }
    place + VALUED_BYTES
}

// So many moves, whose records stand one after the other from the start.
pub fn moves(out: &mut [u8], at: usize, count: usize, s: &[u8]) -> usize
    ensures { page out.new result
        ≡ pushes (moves_text count s.now) (page out.old at) }
{
    let mut next = at;
    let mut place = 0;
    for _ in 0..count {
        next = first_move(out, next, &s[place..]);
        place = after(s, place);
    }
    next
}
