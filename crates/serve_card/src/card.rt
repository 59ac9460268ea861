// The service card.
ghost use Rattle.std.specs.Prelude.{◌≡◌, List, [], ◌∷◌, ◌++◌, ◌+◌, ◌≤◌, ℕ, length, take};
ghost use Rattle.std.proofs.lemmas.List.Edits.{sets};
ghost use Rattle.serve_card.specs.Promise.{CardPromise};
ghost use Rattle.serve_card.specs.inner.Drawing.{Drawable, Drawn};

use crate::lent::lent_reason;
use card_bytes::positions::write_positions;
use dfa::words::clear;
use dfa_numbering::number::number_states;
use dfa_sorting::sort_states;
use serve_compare::causes::both_cause;
use sheet_reader::reading::numbers_of;
use sheet_records::read::get_or;
use sheet_records::refusal::{Cause, Sheets, of_sheet};
use sheet_records::store::put;
use states_build::build::one_from_rows;
use term_expand::expand::TERM_WORDS;
use term_load::load::load;

// Writes the heading, all bytes of the sheet up to its term at the root, and the type: the place after them.
fn write_heading(sheet: &[u8], root: usize, ty: u8, space: &mut [u8]) -> usize
    requires { root ≤ length sheet.now × (root ≤ 4096) }
    ensures returned { result ≡ root + 1 }
    ensures written { space.new
        ≡ sets space.old 0 (take root sheet.now ++ (ty ∷ [])) }
{
    for i in 0..root {
        put(space, i, get_or(sheet, i, 0));
    }
    put(space, root, ty);
    root + 1
}

// Writes the positions of the automaton of a sheet of size `all`, from a place on: the place after them.
fn write_table(words: &mut [u32], all: usize, space: &mut [u8], place: usize) -> usize
    requires { (s : List ℕ) × ((ty : ℕ) × Drawable s ty all place words.old) }
    ensures { (s : List ℕ) (ty : ℕ) (D : Drawable s ty all place words.old)
        → Drawn s ty D.sheet place space.old result space.new }
{
    sort_states(words, all + 1, all - 1);
    let count = number_states(words, all + 1);
    write_positions(words, all + 1, all - 1, count, space, place)
}

// The card of a sheet, at the start of the space: its length.
pub fn card(sheet: &[u8], words: &mut [u32], space: &mut [u8]) -> Result<usize, Cause>
    ensures { CardPromise sheet.now words.old space.old result words.new
        space.new }
{
    let mut t = [0u16; TERM_WORDS];
    let x = load(sheet, &mut t);
    // `let .. else`, not `?`: the form of document 01 in which the answer is taken apart and the refusal handed on.
    let Ok(loaded) = x else {
        return Err(of_sheet(x.err().unwrap(), Sheets::Old));
    };
    let all = loaded.size as usize;
    let n = numbers_of(sheet);
    if let Some(reason) = lent_reason(n, words.len(), space.len(), all) {
        return Err(both_cause(reason));
    }
    one_from_rows(&t, n, loaded.row, all, words);
    let place = write_heading(sheet, loaded.root, loaded.ty, space);
    let length = write_table(words, all, space, place);
    clear(words);
    Ok(length)
}
