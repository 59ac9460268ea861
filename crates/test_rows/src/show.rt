// Titles, sheets and reports.
ghost use Rattle.print_text.specs.Page.{Counts};

use print_report::report;
use print_text::write::{push, text};

pub(crate) fn say(rt: &impl Print, s: &[u8]) {
    let _ = rt.write_all(s);
}

pub(crate) fn title(rt: &impl Print, s: &[u8]) {
    say(rt, b"# ");
    say(rt, s);
    say(rt, b"\n");
}

pub(crate) fn number(rt: &impl Print, n: u64) {
    let _ = rt.print(n);
}

// Writes the sheet of a range, a rule, name records and a term from the start of out: its length.
fn sheet(out: &mut [u8], z: u8, rule: u8, names: &[u8], term: &[u8]) -> usize
    ensures { Counts result out.new }
{
    let a = push(out, 0, z);
    let b = push(out, a, rule);
    let c = text(out, b, names);
    text(out, c, term)
}

// Compares two sheets and prints the report.
pub(crate) fn compared(
    rt: &impl Print,
    old: &[u8],
    new: &[u8],
    words: &mut [u32],
    space: &mut [u8],
) {
    let mut out = [0u8; 65536];
    let n = report(old, new, words, space, &mut out);
    say(rt, &out[..n]);
}

// The same with as many words and bytes as the program lends.
pub(crate) fn as_program(rt: &impl Print, old: &[u8], new: &[u8]) {
    let mut words = [0u32; 16384];
    let mut space = [0u8; 2040];
    compared(rt, old, new, &mut words, &mut space);
}

// Two terms with the same range, rule and name records, as the program compares them.
pub(crate) fn row(
    rt: &impl Print,
    what: &[u8],
    z: u8,
    rule: u8,
    names: &[u8],
    old: &[u8],
    new: &[u8],
) {
    let mut a = [0u8; 256];
    let mut b = [0u8; 256];
    let n = sheet(&mut a, z, rule, names, old);
    let m = sheet(&mut b, z, rule, names, new);
    title(rt, what);
    as_program(rt, &a[..n], &b[..m]);
}

// The same with words and bytes for every example.
pub(crate) fn with_room(rt: &impl Print, z: u8, rule: u8, names: &[u8], old: &[u8], new: &[u8]) {
    let mut a = [0u8; 64];
    let mut b = [0u8; 64];
    let n = sheet(&mut a, z, rule, names, old);
    let m = sheet(&mut b, z, rule, names, new);
    let mut words = [0u32; 114688];
    let mut space = [0u8; 14336];
    compared(rt, &a[..n], &b[..m], &mut words, &mut space);
}
