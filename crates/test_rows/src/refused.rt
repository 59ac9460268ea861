// A pair of sheets for each refusal that the program can print, in the old sheet and in the new one.
use crate::show::{as_program, title};

// 33 fetches, each the part of the one before.
const FETCHES: [u8; 35] = [
    1, 0, 21, 21, 21, 21, 21, 21, 21, 21, 21, 21, 21, 21, 21, 21, 21, 21, 21, 21, 21, 21, 21, 21,
    21, 21, 21, 21, 21, 21, 21, 21, 21, 21, 21,
];

// 32 retired ids, and the kind byte of one more.
const RETIRED: [u8; 67] = [
    1, 0, 2, 0, 2, 1, 2, 2, 2, 3, 2, 4, 2, 5, 2, 6, 2, 7, 2, 8, 2, 9, 2, 10, 2, 11, 2, 12, 2, 13,
    2, 14, 2, 15, 2, 16, 2, 17, 2, 18, 2, 19, 2, 20, 2, 21, 2, 22, 2, 23, 2, 24, 2, 25, 2, 26, 2,
    27, 2, 28, 2, 29, 2, 30, 2, 31, 2,
];

fn sheet(rt: &impl Print, what: &[u8], s: &[u8]) {
    title(rt, what);
    as_program(rt, s, b"");
    as_program(rt, &[1, 0, 16], s);
}

pub(crate) fn sheets(rt: &impl Print) {
    sheet(rt, b"1 over 4,096 bytes", &[0; 4097]);
    sheet(rt, b"2 empty", b"");
    sheet(rt, b"2 no term", &[1, 0]);
    sheet(rt, b"3 Z = 0", &[0]);
    sheet(rt, b"3 Z = 32", &[32, 0, 16]);
    sheet(rt, b"3 constant 2", &[1, 0, 19, 2]);
    sheet(rt, b"4 an id retired twice", &[1, 0, 2, 0, 2, 0]);
    sheet(rt, b"4 a new on a retired id", &[1, 0, 2, 5, 27, 5, 2, 16]);
}

pub(crate) fn more_sheets(rt: &impl Print) {
    sheet(rt, b"5 use of an id that nothing declares", &[1, 0, 20, 5]);
    sheet(rt, b"6 use of a retired id", &[1, 0, 2, 5, 20, 5]);
    sheet(
        rt,
        b"7 while with a command as its test",
        &[1, 0, 26, 16, 16],
    );
    sheet(rt, b"8 fetches to depth 33", &FETCHES);
    sheet(rt, b"9 33 retired ids", &RETIRED);
    sheet(rt, b"10 bytes after the term", &[1, 0, 16, 16]);
    sheet(
        rt,
        b"11 size 6,978",
        &[7, 0, 27, 0, 2, 27, 1, 2, 23, 20, 0, 19, 0],
    );
}

// Document 02, [3]: a binder with the id of an enclosing one.
pub(crate) fn enclosed(rt: &impl Print) {
    sheet(
        rt,
        b"16 a new inside one with its id",
        &[1, 0, 27, 1, 2, 27, 1, 2, 16],
    );
    sheet(
        rt,
        b"16 a procedure inside a new with its id",
        &[1, 0, 27, 1, 2, 28, 1],
    );
    sheet(
        rt,
        b"16 a parameter inside a new with its id",
        &[1, 0, 27, 1, 2, 28, 2, 0, 1, 1],
    );
    sheet(
        rt,
        b"16 a procedure inside another with its id",
        b"\x01\x00\x1c\x02\x00\x00\xff\xff\xff\xff\xff\xff\xff\xff\x10\x1c\x02",
    );
    sheet(
        rt,
        b"16 a new with a parameter's id in the procedure's term",
        b"\x01\x00\x1c\x02\x00\x01\x04\x00\xff\xff\xff\xff\xff\xff\x1b\x04",
    );
}

fn pair(rt: &impl Print, what: &[u8], old: &[u8], new: &[u8]) {
    title(rt, what);
    as_program(rt, old, new);
}

pub(crate) fn pairs(rt: &impl Print) {
    pair(rt, b"12 the rules differ", &[1, 0, 16], &[1, 1, 16]);
    pair(
        rt,
        b"12 the result types differ",
        &[1, 0, 16],
        &[1, 0, 17, 1],
    );
    pair(
        rt,
        b"13 sizes 3,378 and 4",
        &[7, 0, 27, 0, 2, 27, 1, 2, 27, 2, 2, 16],
        &[7, 0, 16],
    );
    pair(rt, b"Z = 31, sizes 4 and 4", &[31, 0, 16], &[31, 0, 17, 0]);
    pair(
        rt,
        b"13 Z = 31, sizes 66 and 66",
        &[31, 0, 19, 31],
        &[31, 0, 19, 30],
    );
}
