// The name records and terms that more than one case has: f has id 7, c id 8, e id 9, a private variable id 1.

// f takes a command and is a command.
pub(crate) const F: [u8; 8] = [1, 7, 0, 1, 0, 255, 255, 255];

// f takes a command and a truth expression and is a command.
pub(crate) const F_TWO: [u8; 8] = [1, 7, 0, 2, 0, 1, 255, 255];

// c is a command.
pub(crate) const C: [u8; 8] = [1, 8, 0, 0, 255, 255, 255, 255];

// e is a number expression.
pub(crate) const E: [u8; 8] = [1, 9, 2, 0, 255, 255, 255, 255];

pub(crate) const DIVERGE: [u8; 2] = [17, 0];

// new v in (v := 0; f(v := 1); if !v = 1 then diverge else skip)
pub(crate) const SNAPBACK: [u8; 28] = [
    27, 1, 2, 24, 23, 20, 1, 19, 0, 24, 20, 7, 23, 20, 1, 19, 1, 25, 22, 4, 21, 20, 1, 19, 1, 17,
    0, 16,
];

// new v in f(v := !v + 1)
pub(crate) const COUNTING: [u8; 15] = [27, 1, 2, 20, 7, 23, 20, 1, 22, 0, 21, 20, 1, 19, 1];

// new v in (v := 0; f(v := !v + 2); if !v remainder 2 = 0 then diverge else skip)
pub(crate) const EVEN: [u8; 37] = [
    27, 1, 2, 24, 23, 20, 1, 19, 0, 24, 20, 7, 23, 20, 1, 22, 0, 21, 20, 1, 19, 2, 25, 22, 4, 22,
    3, 21, 20, 1, 19, 2, 19, 0, 17, 0, 16,
];
