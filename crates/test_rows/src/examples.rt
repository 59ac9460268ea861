// Document 001, examples 5.1 to 5.6, for every range and rule. f takes its arguments together; -v is 0 - v, v > 0 is
// 0 < v and not v is v = false.
use crate::show::{number, say, title, with_room};
use crate::terms::{C, COUNTING, DIVERGE, EVEN, F, F_TWO, SNAPBACK};

// new number v in (v := 0; f(v := 1, !v = 0))
const OFF_AS_ONE: [u8; 23] = [
    27, 1, 2, 24, 23, 20, 1, 19, 0, 20, 7, 23, 20, 1, 19, 1, 22, 4, 21, 20, 1, 19, 0,
];

// new number v in (v := 0; f(v := -1, !v = 0))
const OFF_AS_MINUS_ONE: [u8; 23] = [
    27, 1, 2, 24, 23, 20, 1, 19, 0, 20, 7, 23, 20, 1, 19, 255, 22, 4, 21, 20, 1, 19, 0,
];

// new number v in (v := 1; f(v := 0 - !v, 0 < !v))
const SWITCH_BY_NUMBER: [u8; 28] = [
    27, 1, 2, 24, 23, 20, 1, 19, 1, 20, 7, 23, 20, 1, 22, 1, 19, 0, 21, 20, 1, 22, 5, 19, 0, 21,
    20, 1,
];

// new truth v in (v := true; f(v := (!v = false), !v))
const SWITCH_BY_TRUTH: [u8; 24] = [
    27, 1, 1, 24, 23, 20, 1, 18, 1, 20, 7, 23, 20, 1, 22, 8, 21, 20, 1, 18, 0, 21, 20, 1,
];

// One range and rule.
fn range(rt: &impl Print, z: u8, rule: u8, names: &[u8], old: &[u8], new: &[u8]) {
    say(rt, b"Z ");
    number(rt, z as u64);
    say(rt, b" rule ");
    number(rt, rule as u64);
    say(rt, b"\n");
    with_room(rt, z, rule, names, old, new);
}

// Every range.
fn ranges(rt: &impl Print, rule: u8, names: &[u8], old: &[u8], new: &[u8]) {
    for z in 1..8 {
        range(rt, z, rule, names, old, new);
    }
}

fn example(rt: &impl Print, what: &[u8], names: &[u8], old: &[u8], new: &[u8]) {
    title(rt, what);
    ranges(rt, 0, names, old, new);
    ranges(rt, 1, names, old, new);
    ranges(rt, 2, names, old, new);
}

pub(crate) fn all(rt: &impl Print) {
    example(rt, b"5.1 locality", &C, &[27, 1, 2, 20, 8], &[20, 8]);
    example(rt, b"5.2 snapback", &F, &SNAPBACK, &[20, 7, 17, 0]);
    example(rt, b"5.3 invariant", &F, &EVEN, &DIVERGE);
    example(
        rt,
        b"5.4 representation",
        &F_TWO,
        &OFF_AS_ONE,
        &OFF_AS_MINUS_ONE,
    );
    example(rt, b"5.5 parametricity", &F, &COUNTING, &[20, 7, 16]);
    example(
        rt,
        b"5.6 switch",
        &F_TWO,
        &SWITCH_BY_NUMBER,
        &SWITCH_BY_TRUTH,
    );
}
