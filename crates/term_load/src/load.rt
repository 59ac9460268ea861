// Loading a sheet: it is judged, and its term is expanded to rows.
ghost use Rattle.term_load.specs.Loaded.{MarksOf, Expanded, LoadedBy, Shows};
ghost use Rattle.std.specs.Prelude.{◌≡◌, length};

use sheet_judge::judge::judge_sheet;
use sheet_judge::mark::Uses;
use sheet_records::edition::Edition;
use sheet_records::limits::MOST_BYTES;
use sheet_records::read::get_or;
use sheet_records::refusal::Refusal;
use sheet_records::store::put;
use sheet_rows::row::{MARKS, TABLE};
use term_expand::expand::{TERM_WORDS, expand_term};

// A sheet that is loaded: the place of its term, the row of the term, its type, the sheet's size and which names it
// uses.
#[derive(Drop)]
pub struct Loaded {
    pub root: usize,
    pub row: usize,
    pub ty: u8,
    pub size: u32,
    pub uses: Uses,
}

// The marks of a table's places.
fn copy_marks(t: &[u16], marks: &mut [u16])
    requires { length marks.old ≡ 4096 }
    ensures { MarksOf t.now marks.new 4096 }
{
    for i in 0..MOST_BYTES {
        put(marks, i, get_or(t, MARKS + i, 0));
    }
}

// Expands the term whose parts the table has from the root on, and gives its row.
fn expand_root(t: &[u16; TABLE], rows: &mut [u16; TERM_WORDS], root: usize) -> usize
    requires { Shows t.now root rows.old }
    ensures { Expanded t.now root rows.old rows.new result }
{
    let mut marks = [0u16; MOST_BYTES];
    copy_marks(t, &mut marks);
    let made = expand_term(t, &marks, rows, root as u16);
    made.row as usize
}

// Loads a sheet, and leaves the rows of its term.
pub fn load(s: &[u8], rows: &mut [u16; TERM_WORDS]) -> Result<Loaded, Refusal>
    requires { length rows.old ≡ 110592 }
    ensures { LoadedBy s.now result rows.new }
{
    let mut t = [0u16; TABLE];
    let x = judge_sheet(Edition::Present, s, &mut t);
    // `let .. else`, not `?`: the form of document 01 in which the answer is taken apart and the refusal handed on.
    let Ok(judgement) = x else {
        return Err(x.err().unwrap());
    };
    let row = expand_root(&t, rows, judgement.root);
    Ok(Loaded {
        root: judgement.root,
        row,
        ty: judgement.ty,
        size: judgement.size,
        uses: judgement.uses,
    })
}
