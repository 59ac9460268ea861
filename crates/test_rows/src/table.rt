// Document 01, "Sheets worked through".
use crate::show::row;
use crate::terms::{C, COUNTING, DIVERGE, E, EVEN, F, SNAPBACK};

pub(crate) fn rows(rt: &impl Print) {
    row(rt, b"skip | diverge", 1, 0, b"", &[16], &DIVERGE);
    row(
        rt,
        b"while true do skip | diverge",
        1,
        0,
        b"",
        &[26, 18, 1, 16],
        &DIVERGE,
    );
    row(
        rt,
        b"c; diverge | diverge",
        1,
        0,
        &C,
        &[24, 20, 8, 17, 0],
        &DIVERGE,
    );
    row(
        rt,
        b"new number v in c | c",
        1,
        0,
        &C,
        &[27, 1, 2, 20, 8],
        &[20, 8],
    );
    row(rt, b"c; c | c", 1, 0, &C, &[24, 20, 8, 20, 8], &[20, 8]);
    row(rt, b"e + 0 | e", 1, 0, &E, &[22, 0, 20, 9, 19, 0], &[20, 9]);
    row(rt, b"e - e | 0", 1, 0, &E, &[22, 1, 20, 9, 20, 9], &[19, 0]);
}

pub(crate) fn more_rows(rt: &impl Print) {
    // new v in (v := 0; f(v := 1); if !v = 1 then diverge else skip) | f(diverge)
    row(
        rt,
        b"snapback | f(diverge)",
        1,
        0,
        &F,
        &SNAPBACK,
        &[20, 7, 17, 0],
    );
    // new v in f(v := !v + 1) | f(skip)
    row(
        rt,
        b"counting | f(skip), rule 1",
        1,
        1,
        &F,
        &COUNTING,
        &[20, 7, 16],
    );
    row(
        rt,
        b"counting | f(skip), rule 0",
        1,
        0,
        &F,
        &COUNTING,
        &[20, 7, 16],
    );
    // new v in (v := 0; f(v := !v + 2); if !v remainder 2 = 0 then diverge else skip) | diverge
    row(rt, b"even | diverge, Z 2 rule 0", 2, 0, &F, &EVEN, &DIVERGE);
    row(rt, b"even | diverge, Z 2 rule 1", 2, 1, &F, &EVEN, &DIVERGE);
}
