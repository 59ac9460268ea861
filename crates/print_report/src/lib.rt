// What the program prints: the answer of compare as text.
#![tactic(auto)]

ghost use Rattle.std.specs.Prelude.{◌≡◌};
ghost use Rattle.print_text.specs.Page.{page, pushes, Counts};
ghost use Rattle.print_text.specs.Text.{text_of};
ghost use Rattle.print_report.specs.Reported.{Reported};

use serve_compare::Comparison;
use serve_compare::compare::compare;
use sheet_records::refusal::Cause;

// The text of the program renumber.
pub mod changes;

// Writes the text of an answer from the start of out: how many bytes it has.
fn answer(
    old: &[u8],
    new: &[u8],
    r: Result<Comparison, Cause>,
    space: &[u8],
    out: &mut [u8],
) -> usize
    ensures { page out.new result
        ≡ pushes (text_of old.now new.now r space.now) (page out.old 0) }
{
    match r {
        Err(x) => print_text::lines::refused(out, 0, x),
        Ok(c) => {
            let at = print_text::lines::sheets(out, 0, old, new, c.old, c.new);
            match c.found {
                None => print_text::write::text(out, at, b"same\n"),
                Some(first) => {
                    let next = print_text::lines::apart(out, at, first.sheet, first.moves);
                    print_text::lines::moves(out, next, first.moves, space)
                }
            }
        }
    }
}

// Compares two sheets and writes the text of the answer from the start of out, as much as there is room for: how many
// bytes are written.
pub fn report(old: &[u8], new: &[u8], words: &mut [u32], space: &mut [u8], out: &mut [u8]) -> usize
    ensures reported { Reported old.now new.now words.old space.old
        out.old result words.new space.new out.new }
    ensures counted { Counts result out.new }
{
    let r = compare(old, new, words, space);
    answer(old, new, r, space, out)
}
