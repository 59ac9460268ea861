// Renumbers old.sheet: gives each inner name that hides an outer one an id of its own, prints the changes, and writes the
// sheet as new.sheet. Where the sheet is refused it prints the refusal and writes nothing. Where old.sheet is there and
// cannot be read to its end it prints nothing but a line on standard error. Such a line comes also where its text cannot
// be printed whole, and then nothing is written, and where new.sheet cannot be written, which then stays as it was.
#![tactic(auto)]

use files::{print, read_sheet, write_sheet};
use print_report::changes::report_changes;

// One byte more than a sheet may have, so that a longer file is refused.
const LONGEST: usize = 4097;

// How many bytes the list of changes has.
const LIST: usize = 1020;

// How many bytes there are for the text, which do for every text.
const TEXT: usize = 4096;

fn main(rt: HostRuntime) {
    let mut old = [0u8; LONGEST];
    let Some(n) = read_sheet(&rt, b"old.sheet", &mut old) else {
        return;
    };
    let mut new = [0u8; LONGEST];
    let mut list = [0u8; LIST];
    let mut text = [0u8; TEXT];
    let told = report_changes(&old[..n], &mut new, &mut list, &mut text);
    let count = told.count;
    if print(&rt, &text[..count]) && told.renumbered {
        // The sheet written is as long as the one read.
        write_sheet(&rt, b"new.sheet", b"new.sheet.part", &new[..n]);
    }
}
