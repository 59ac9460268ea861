// Compares old.sheet and new.sheet, and prints that they have the same complete plays, or the first play that only
// one of them has. Where a file is there and cannot be read to its end, it prints nothing but a line on standard error;
// so it does where its text cannot be printed whole.
#![tactic(auto)]

use files::{print, read_sheet};

// The bytes read of a file: one more than a sheet may have, so that a longer one is refused.
const LONGEST: usize = 4097;

// The working words, the bytes of play space and those of the longest text.
const WORDS: usize = 16384;

const SPACE: usize = 2040;

const TEXT: usize = 8192;

fn main(rt: HostRuntime) {
    let mut old = [0u8; LONGEST];
    let Some(n) = read_sheet(&rt, b"old.sheet", &mut old) else {
        return;
    };
    let mut new = [0u8; LONGEST];
    let Some(m) = read_sheet(&rt, b"new.sheet", &mut new) else {
        return;
    };
    let mut words = [0u32; WORDS];
    let mut space = [0u8; SPACE];
    let mut out = [0u8; TEXT];
    let count = print_report::report(&old[..n], &new[..m], &mut words, &mut space, &mut out);
    print(&rt, &out[..count]);
}
