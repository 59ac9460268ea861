// Document 02, [8]: a moon table that runs off the end of the range, under each of the three rules.
use crate::show::row;
use crate::terms::{COUNTING, E};

// f takes a command and is a command; c is a command.
const F_AND_C: [u8; 16] = [1, 7, 0, 1, 0, 255, 255, 255, 1, 8, 0, 0, 255, 255, 255, 255];

// new v in (f(v := !v + 1); if 1 < !v then c else skip)
const NOTED: [u8; 27] = [
    27, 1, 2, 24, 20, 7, 23, 20, 1, 22, 0, 21, 20, 1, 19, 1, 25, 22, 5, 19, 1, 21, 20, 1, 20, 8, 16,
];

// f goes through the table: each use of its argument moves v one line on. The old routine has c note that the table has
// run out, the new one has not.
fn table(rt: &impl Print, what: &[u8], rule: u8) {
    row(rt, what, 1, rule, &F_AND_C, &NOTED, &COUNTING);
}

pub(crate) fn rows(rt: &impl Print) {
    table(
        rt,
        b"a moon table with a note at its end | without it, rule 0",
        0,
    );
    table(
        rt,
        b"a moon table with a note at its end | without it, rule 1",
        1,
    );
    table(
        rt,
        b"a moon table with a note at its end | without it, rule 2",
        2,
    );
    row(
        rt,
        b"e remainder 0 | diverge, rule 2",
        1,
        2,
        &E,
        &[22, 3, 20, 9, 19, 0],
        &[17, 2],
    );
}
