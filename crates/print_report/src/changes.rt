// What the program renumber prints: the answer of renumber as text.
ghost use Rattle.std.specs.Prelude.{◌≡◌};
ghost use Rattle.print_text.specs.Page.{page, pushes, Counts};
ghost use Rattle.print_report.specs.Changes.{change_text, change_at, changes_text, changed_text, renumber_text};
ghost use Rattle.print_report.specs.Changes.{is_renumbered, RenumberReported};

use print_text::lines::refused;
use print_text::write::{decimal, text};
use serve_renumber::renumber::{CHANGE, renumber};
use sheet_records::limits::BYTES;
use sheet_records::read::get_or;
use sheet_records::refusal::Cause;

// How many bytes the text has, and whether the sheet is renumbered; else it is refused.
#[derive(Drop)]
pub struct Told {
    pub count: usize,
    pub renumbered: bool,
}

// A change: the place of the id byte, the old id and the new one.
fn change_line(out: &mut [u8], at: usize, place: usize, old: u8, given: u8) -> usize
    ensures { page out.new result
        ≡ pushes (change_text place old given) (page out.old at) }
{
    let a = decimal(out, at, place);
    let b = text(out, a, b" ");
    let c = decimal(out, b, old as usize);
    let d = text(out, c, b" ");
    let e = decimal(out, d, given as usize);
    text(out, e, b"\n")
}

// A change of the list, by its number from 0. The place stands there in two bytes, low byte first.
fn change_at(out: &mut [u8], at: usize, list: &[u8], i: u32) -> usize
    ensures { page out.new result
        ≡ pushes (change_at i list.now) (page out.old at) }
{
    let first = CHANGE * i as usize;
    let low = get_or(list, first, 0);
    let high = get_or(list, first + 1, 0);
    let old = get_or(list, first + 2, 0);
    let given = get_or(list, first + 3, 0);
    change_line(out, at, low as usize + BYTES * high as usize, old, given)
}

// So many changes, from the first of the list on.
fn changes(out: &mut [u8], at: usize, count: u32, list: &[u8]) -> usize
    ensures { page out.new result
        ≡ pushes (changes_text count 0 list.now) (page out.old at) }
{
    let mut next = at;
    for i in 0..count {
        next = change_at(out, next, list, i);
    }
    next
}

// The number of changes, and the changes.
fn changed(out: &mut [u8], at: usize, count: u32, list: &[u8]) -> usize
    ensures { page out.new result
        ≡ pushes (changed_text count list.now) (page out.old at) }
{
    let a = text(out, at, b"changes ");
    let b = decimal(out, a, count as usize);
    let c = text(out, b, b"\n");
    changes(out, c, count, list)
}

// Writes the text of an answer from the start of out.
fn answer(r: Result<u32, Cause>, list: &[u8], out: &mut [u8]) -> Told
    ensures written { page out.new result.count
        ≡ pushes (renumber_text r list.now) (page out.old 0) }
    ensures said { result.renumbered ≡ is_renumbered r }
{
    match r {
        Ok(n) => {
            let count = changed(out, 0, n, list);
            Told {
                count,
                renumbered: true,
            }
        }
        Err(x) => {
            let count = refused(out, 0, x);
            Told {
                count,
                renumbered: false,
            }
        }
    }
}

// Renumbers a sheet into output, with the list of its changes, and writes the text of the answer from the start of out,
// as much as there is room for.
pub fn report_changes(sheet: &[u8], output: &mut [u8], list: &mut [u8], out: &mut [u8]) -> Told
    ensures reported { RenumberReported sheet.now output.old list.old
        out.old result output.new list.new out.new }
    ensures counted { Counts result.count out.new }
{
    let r = renumber(sheet, output, list);
    answer(r, list, out)
}
