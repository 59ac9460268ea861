// Document 02, [2]: remainders of negative numbers, for Z = 7.
use crate::show::row;
use crate::terms::E;

pub(crate) fn rows(rt: &impl Print) {
    row(
        rt,
        b"-1 remainder 7 | 6, rule 0",
        7,
        0,
        b"",
        &[22, 3, 19, 255, 19, 7],
        &[19, 6],
    );
    row(
        rt,
        b"-1 remainder 7 | 6, rule 1",
        7,
        1,
        b"",
        &[22, 3, 19, 255, 19, 7],
        &[19, 6],
    );
    row(
        rt,
        b"-1 remainder -7 | 6",
        7,
        0,
        b"",
        &[22, 3, 19, 255, 19, 249],
        &[19, 6],
    );
    row(
        rt,
        b"-7 remainder 7 | 0",
        7,
        0,
        b"",
        &[22, 3, 19, 249, 19, 7],
        &[19, 0],
    );
    row(
        rt,
        b"e remainder 0 | diverge",
        7,
        1,
        &E,
        &[22, 3, 20, 9, 19, 0],
        &[17, 2],
    );
}
