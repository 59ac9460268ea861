// The nine operators by number, and what they give.

// The operators, by their numbers in a sheet: four that give a number, two that compare numbers, three on truths.
pub const PLUS: u8 = 0;

pub const MINUS: u8 = 1;

pub const TIMES: u8 = 2;

pub const REMAINDER: u8 = 3;

pub const EQUAL: u8 = 4;

pub const LESS: u8 = 5;

pub const AND: u8 = 6;

pub const OR: u8 = 7;

const EQUAL_TRUTHS: u8 = 8;
