// Words and bytes lent, and follow.
ghost use Rattle.print_text.specs.Page.{Counts};

use crate::show::{compared as show, number, say, title};
use print_text::lines;
use serve_compare::Following;
use serve_compare::follow::follow;
use sheet_records::refusal::Cause;

const SKIP: [u8; 3] = [1, 0, 16];

const DIVERGE: [u8; 4] = [1, 0, 17, 0];

pub(crate) fn compared(rt: &impl Print) {
    let mut words = [0u32; 288];
    let mut fewer = [0u32; 287];
    let mut space = [0u8; 28];
    let mut short = [0u8; 27];
    title(rt, b"288 words, 28 bytes");
    show(rt, &SKIP, &DIVERGE, &mut words, &mut space);
    title(rt, b"287 words, 28 bytes");
    show(rt, &SKIP, &DIVERGE, &mut fewer, &mut space);
    title(rt, b"288 words, 27 bytes");
    show(rt, &SKIP, &DIVERGE, &mut words, &mut short);
}

// Writes a refusal from the start of out: its length.
fn refusal(out: &mut [u8], x: Cause) -> usize
    ensures { Counts result out.new }
{
    lines::refused(out, 0, x)
}

// Prints how many moves follow finds, and whether the play is complete; or the refusal.
fn print(rt: &impl Print, r: Result<Following, Cause>) {
    match r {
        Ok(Following { count, complete }) => {
            number(rt, count as u64);
            if complete {
                say(rt, b" yes\n")
            } else {
                say(rt, b" no\n")
            }
        }
        Err(x) => {
            let mut out = [0u8; 64];
            let n = refusal(&mut out, x);
            say(rt, &out[..n]);
        }
    }
}

fn play(rt: &impl Print, what: &[u8], sheet: &[u8], play: &[u8]) {
    let mut words = [0u32; 160];
    title(rt, what);
    print(rt, follow(sheet, play, &mut words));
}

pub(crate) fn followed(rt: &impl Print) {
    play(rt, b"run on skip", &SKIP, &[0, 255, 0]);
    play(rt, b"run on diverge", &DIVERGE, &[0, 255, 0]);
    play(rt, b"run and done on skip", &SKIP, &[0, 255, 0, 1, 255, 0]);
    play(rt, b"a record cut short", &SKIP, &[0, 255, 0, 1, 255]);
    play(rt, b"kind 7", &SKIP, &[0, 255, 0, 7, 255, 0]);
}
