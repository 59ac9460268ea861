// Document 02, [5]: names that ask once.
use crate::show::row;
use crate::terms::COUNTING;

// f takes a command, is a command and asks once.
const F_ONCE: [u8; 8] = [3, 7, 0, 1, 0, 255, 255, 255];

// f takes two commands, is a command and asks once.
const F_TWO_ONCE: [u8; 8] = [3, 7, 0, 2, 0, 0, 255, 255];

pub(crate) fn rows(rt: &impl Print) {
    // new v in f(v := !v + 1) | f(skip)
    row(
        rt,
        b"counting | f(skip), rule 0, f asks once",
        1,
        0,
        &F_ONCE,
        &COUNTING,
        &[20, 7, 16],
    );
    row(
        rt,
        b"f(f(skip)) | f(skip), f asks once",
        1,
        0,
        &F_ONCE,
        &[20, 7, 20, 7, 16],
        &[20, 7, 16],
    );
    row(
        rt,
        b"f(skip, diverge) | f(skip, skip), f asks once",
        1,
        0,
        &F_TWO_ONCE,
        &[20, 7, 16, 17, 0],
        &[20, 7, 16, 16],
    );
}
