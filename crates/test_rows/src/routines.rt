// Document 02, [1]: procedures. p has id 2, a second one, q, id 3; the parameters are a command s (4), a number
// expression n (5) and a number variable w (6). v is a private variable (1), u one inside it (0).
use crate::show::row;
use crate::terms::{C, E};

// x is a number variable.
const X: [u8; 8] = [1, 10, 4, 0, 255, 255, 255, 255];

// f takes a command and is a command, c is a command.
const F_AND_C: [u8; 16] = [1, 7, 0, 1, 0, 255, 255, 255, 1, 8, 0, 0, 255, 255, 255, 255];

// rule, day, rank, bold, full, break, and the texts of three saints.
const SAINTS: [u8; 72] = [
    1, 10, 0, 0, 255, 255, 255, 255, 1, 11, 4, 0, 255, 255, 255, 255, 1, 12, 4, 0, 255, 255, 255,
    255, 1, 13, 0, 1, 0, 255, 255, 255, 1, 14, 1, 0, 255, 255, 255, 255, 1, 15, 0, 0, 255, 255,
    255, 255, 1, 16, 0, 0, 255, 255, 255, 255, 1, 17, 0, 0, 255, 255, 255, 255, 1, 18, 0, 0, 255,
    255, 255, 255,
];

// Six lines for each of three saints.
const SIX_LINES_EACH: [u8; 89] = [
    24, 24, 20, 10, 24, 23, 20, 11, 19, 254, 24, 23, 20, 12, 19, 1, 24, 20, 13, 20, 16, 24, 25, 20,
    14, 20, 15, 16, 20, 16, 24, 24, 20, 10, 24, 23, 20, 11, 19, 0, 24, 23, 20, 12, 19, 3, 24, 20,
    13, 20, 17, 24, 25, 20, 14, 20, 15, 16, 20, 17, 24, 20, 10, 24, 23, 20, 11, 19, 4, 24, 23, 20,
    12, 19, 2, 24, 20, 13, 20, 18, 24, 25, 20, 14, 20, 15, 16, 20, 18,
];

// procedure saint(d, r, text) = six lines in three uses of it
const SIX_LINES_ONCE: [u8; 67] = [
    28, 30, 0, 3, 31, 2, 32, 2, 33, 0, 255, 255, 24, 20, 10, 24, 23, 20, 11, 20, 31, 24, 23, 20,
    12, 20, 32, 24, 20, 13, 20, 33, 24, 25, 20, 14, 20, 15, 16, 20, 33, 24, 20, 30, 19, 254, 19, 1,
    20, 16, 24, 20, 30, 19, 0, 19, 3, 20, 17, 20, 30, 19, 4, 19, 2, 20, 18,
];

// The same with day and rank exchanged in the procedure.
const EXCHANGED: [u8; 67] = [
    28, 30, 0, 3, 31, 2, 32, 2, 33, 0, 255, 255, 24, 20, 10, 24, 23, 20, 11, 20, 32, 24, 23, 20,
    12, 20, 31, 24, 20, 13, 20, 33, 24, 25, 20, 14, 20, 15, 16, 20, 33, 24, 20, 30, 19, 254, 19, 1,
    20, 16, 24, 20, 30, 19, 0, 19, 3, 20, 17, 20, 30, 19, 4, 19, 2, 20, 18,
];

// procedure p(s) = s; s in p(c)
const TWICE: [u8; 21] = [
    28, 2, 0, 1, 4, 0, 255, 255, 255, 255, 255, 255, 24, 20, 4, 20, 4, 20, 2, 20, 8,
];

// procedure p(s) = c; s in p(p(skip))
const C_BEFORE: [u8; 22] = [
    28, 2, 0, 1, 4, 0, 255, 255, 255, 255, 255, 255, 24, 20, 8, 20, 4, 20, 2, 20, 2, 16,
];

// procedure p(s) = f(s) in p(c)
const HANDED_TO_F: [u8; 20] = [
    28, 2, 0, 1, 4, 0, 255, 255, 255, 255, 255, 255, 20, 7, 20, 4, 20, 2, 20, 8,
];

// procedure p(s) = skip in p(four blocks)
const FOUR_BLOCKS: [u8; 28] = [
    28, 2, 0, 1, 4, 0, 255, 255, 255, 255, 255, 255, 16, 20, 2, 27, 20, 2, 27, 21, 2, 27, 22, 2,
    27, 23, 2, 16,
];

// procedure p(s) = diverge in c
const NOT_USED: [u8; 16] = [
    28, 2, 0, 1, 4, 0, 255, 255, 255, 255, 255, 255, 17, 0, 20, 8,
];

// p(s) = p(p(s)), nine times, first s
const NINE_TIMES: [u8; 180] = [
    28, 20, 0, 1, 4, 0, 255, 255, 255, 255, 255, 255, 20, 4, 28, 21, 0, 1, 4, 0, 255, 255, 255,
    255, 255, 255, 20, 20, 20, 20, 20, 4, 28, 22, 0, 1, 4, 0, 255, 255, 255, 255, 255, 255, 20, 21,
    20, 21, 20, 4, 28, 23, 0, 1, 4, 0, 255, 255, 255, 255, 255, 255, 20, 22, 20, 22, 20, 4, 28, 24,
    0, 1, 4, 0, 255, 255, 255, 255, 255, 255, 20, 23, 20, 23, 20, 4, 28, 25, 0, 1, 4, 0, 255, 255,
    255, 255, 255, 255, 20, 24, 20, 24, 20, 4, 28, 26, 0, 1, 4, 0, 255, 255, 255, 255, 255, 255,
    20, 25, 20, 25, 20, 4, 28, 27, 0, 1, 4, 0, 255, 255, 255, 255, 255, 255, 20, 26, 20, 26, 20, 4,
    28, 28, 0, 1, 4, 0, 255, 255, 255, 255, 255, 255, 20, 27, 20, 27, 20, 4, 28, 29, 0, 1, 4, 0,
    255, 255, 255, 255, 255, 255, 20, 28, 20, 28, 20, 4, 20, 29, 20, 8,
];

// procedure p(s) = new v in (s; v := 0) in new v in (p(v := 1); x := !v)
const SAME_ID: [u8; 40] = [
    28, 2, 0, 1, 4, 0, 255, 255, 255, 255, 255, 255, 27, 1, 2, 24, 20, 4, 23, 20, 1, 19, 0, 27, 1,
    2, 24, 20, 2, 23, 20, 1, 19, 1, 23, 20, 10, 21, 20, 1,
];

// procedure p() = new v in (x := !v; v := 1) in p; p
const ANEW: [u8; 32] = [
    28, 2, 0, 0, 255, 255, 255, 255, 255, 255, 255, 255, 27, 1, 2, 24, 23, 20, 10, 21, 20, 1, 23,
    20, 1, 19, 1, 24, 20, 2, 20, 2,
];

// new v in procedure p() = v := !v + 1 in (p; (p; x := !v))
const OUTER: [u8; 37] = [
    27, 1, 2, 28, 2, 0, 0, 255, 255, 255, 255, 255, 255, 255, 255, 23, 20, 1, 22, 0, 21, 20, 1, 19,
    1, 24, 20, 2, 24, 20, 2, 23, 20, 10, 21, 20, 1,
];

// procedure p(w) = w := !w + 1 in new v in (p(v); (p(v); x := !v))
const GIVEN: [u8; 41] = [
    28, 2, 0, 1, 6, 4, 255, 255, 255, 255, 255, 255, 23, 20, 6, 22, 0, 21, 20, 6, 19, 1, 27, 1, 2,
    24, 20, 2, 20, 1, 24, 20, 2, 20, 1, 23, 20, 10, 21, 20, 1,
];

// procedure p() = c in procedure q() = p; p in q
const HANDED_ON: [u8; 33] = [
    28, 2, 0, 0, 255, 255, 255, 255, 255, 255, 255, 255, 20, 8, 28, 3, 0, 0, 255, 255, 255, 255,
    255, 255, 255, 255, 24, 20, 2, 20, 2, 20, 3,
];

// procedure p() = new p in (p := 1; x := !p) in p
const OWN_VARIABLE: [u8; 29] = [
    28, 2, 0, 0, 255, 255, 255, 255, 255, 255, 255, 255, 27, 2, 2, 24, 23, 20, 2, 19, 1, 23, 20,
    10, 21, 20, 2, 20, 2,
];

// new v in (v := 1; procedure p() = x := !v in new u in p)
const STATIC: [u8; 32] = [
    27, 1, 2, 24, 23, 20, 1, 19, 1, 28, 2, 0, 0, 255, 255, 255, 255, 255, 255, 255, 255, 23, 20,
    10, 21, 20, 1, 27, 0, 2, 20, 2,
];

// procedure p(p) = p; p in p(c)
const OWN_PARAMETER: [u8; 21] = [
    28, 2, 0, 1, 2, 0, 255, 255, 255, 255, 255, 255, 24, 20, 2, 20, 2, 20, 2, 20, 8,
];

// new v in procedure p(n) = (v := 1; x := n) in p(!v)
const LATER: [u8; 31] = [
    27, 1, 2, 28, 2, 0, 1, 5, 2, 255, 255, 255, 255, 255, 255, 24, 23, 20, 1, 19, 1, 23, 20, 10,
    20, 5, 20, 2, 21, 20, 1,
];

// procedure p(n) = n - n in p(e)
const DIFFERENCE: [u8; 22] = [
    28, 2, 2, 1, 5, 2, 255, 255, 255, 255, 255, 255, 22, 1, 20, 5, 20, 5, 20, 2, 20, 9,
];

// procedure p(n) = n + 1 in p(p(0))
const SUM: [u8; 24] = [
    28, 2, 2, 1, 5, 2, 255, 255, 255, 255, 255, 255, 22, 0, 20, 5, 19, 1, 20, 2, 20, 2, 19, 0,
];

// Six lines for each saint, written out and written once.
pub(crate) fn saints(rt: &impl Print) {
    row(
        rt,
        b"six lines for each saint | a procedure of six lines",
        7,
        0,
        &SAINTS,
        &SIX_LINES_EACH,
        &SIX_LINES_ONCE,
    );
    row(
        rt,
        b"six lines for each saint | the same with day and rank exchanged",
        7,
        0,
        &SAINTS,
        &SIX_LINES_EACH,
        &EXCHANGED,
    );
}

// A procedure and its text.
pub(crate) fn inlined(rt: &impl Print) {
    row(
        rt,
        b"procedure p(s) = s; s in p(c) | c; c",
        1,
        0,
        &C,
        &TWICE,
        &[24, 20, 8, 20, 8],
    );
    row(
        rt,
        b"procedure p(s) = s; s in p(c) | c",
        1,
        0,
        &C,
        &TWICE,
        &[20, 8],
    );
    // A use in the argument of another.
    row(
        rt,
        b"procedure p(s) = c; s in p(p(skip)) | c; (c; skip)",
        1,
        0,
        &C,
        &C_BEFORE,
        &[24, 20, 8, 24, 20, 8, 16],
    );
    row(
        rt,
        b"procedure p(s) = f(s) in p(c) | f(c)",
        1,
        0,
        &F_AND_C,
        &HANDED_TO_F,
        &[20, 7, 20, 8],
    );
}

// What is not used weighs nothing, however often it is said.
pub(crate) fn weights(rt: &impl Print) {
    // An argument that is not used weighs nothing: by itself it would be 50,625.
    row(
        rt,
        b"procedure p(s) = skip in p(four blocks) | skip, Z 7",
        7,
        0,
        b"",
        &FOUR_BLOCKS,
        &[16],
    );
    // A procedure that is not used.
    row(
        rt,
        b"procedure p(s) = diverge in c | c",
        1,
        0,
        &C,
        &NOT_USED,
        &[20, 8],
    );
    // 512 uses that come down to one.
    row(
        rt,
        b"p(s) = p(p(s)), nine times, first s | c",
        1,
        0,
        &C,
        &NINE_TIMES,
        &[20, 8],
    );
}

// Private variables of the caller and of the procedure.
pub(crate) fn variables(rt: &impl Print) {
    // A private variable of the caller with the id of one of the procedure.
    row(
        rt,
        b"procedure p(s) = new v in (s; v := 0) in new v in (p(v := 1); x := !v) | x := 1",
        1,
        0,
        &X,
        &SAME_ID,
        &[23, 20, 10, 19, 1],
    );
    // The procedure's own variable begins anew at each use.
    row(
        rt,
        b"procedure p() = new v in (x := !v; v := 1) in p; p | x := 0; x := 0",
        1,
        0,
        &X,
        &ANEW,
        &[24, 23, 20, 10, 19, 0, 23, 20, 10, 19, 0],
    );
    // An outer variable is the variable, not its value.
    row(
        rt,
        b"new v in procedure p() = v := !v + 1 in (p; (p; x := !v)) | x := 2, Z 2",
        2,
        0,
        &X,
        &OUTER,
        &[23, 20, 10, 19, 2],
    );
    // A variable as an argument.
    row(
        rt,
        b"procedure p(w) = w := !w + 1 in new v in (p(v); (p(v); x := !v)) | x := 2, Z 2",
        2,
        0,
        &X,
        &GIVEN,
        &[23, 20, 10, 19, 2],
    );
}

// What an id means where it stands.
pub(crate) fn ids(rt: &impl Print) {
    // A procedure uses one that is around it.
    row(
        rt,
        b"procedure p() = c in procedure q() = p; p in q | c; c",
        1,
        0,
        &C,
        &HANDED_ON,
        &[24, 20, 8, 20, 8],
    );
    // In its own term the procedure's id is free.
    row(
        rt,
        b"procedure p() = new p in (p := 1; x := !p) in p | x := 1",
        1,
        0,
        &X,
        &OWN_VARIABLE,
        &[23, 20, 10, 19, 1],
    );
    // A variable around the procedure, used inside another.
    row(
        rt,
        b"new v in (v := 1; procedure p() = x := !v in new u in p) | x := 1",
        1,
        0,
        &X,
        &STATIC,
        &[23, 20, 10, 19, 1],
    );
}

// What an id and an argument mean in a procedure with a parameter.
pub(crate) fn parameters(rt: &impl Print) {
    // A parameter with the procedure's own id.
    row(
        rt,
        b"procedure p(p) = p; p in p(c) | c; c",
        1,
        0,
        &C,
        &OWN_PARAMETER,
        &[24, 20, 8, 20, 8],
    );
    // The argument is not reckoned beforehand.
    row(
        rt,
        b"new v in procedure p(n) = (v := 1; x := n) in p(!v) | x := 1",
        1,
        0,
        &X,
        &LATER,
        &[23, 20, 10, 19, 1],
    );
}

// Procedures that are expressions.
pub(crate) fn expressions(rt: &impl Print) {
    // The argument is played anew at each use.
    row(
        rt,
        b"procedure p(n) = n - n in p(e) | 0",
        1,
        0,
        &E,
        &DIFFERENCE,
        &[19, 0],
    );
    row(
        rt,
        b"procedure p(n) = n - n in p(e) | e - e",
        1,
        0,
        &E,
        &DIFFERENCE,
        &[22, 1, 20, 9, 20, 9],
    );
    // A procedure that is an expression.
    row(
        rt,
        b"procedure p(n) = n + 1 in p(p(0)) | 2, Z 2",
        2,
        0,
        b"",
        &SUM,
        &[19, 2],
    );
}
