// The limits of sheets by name, each in this place alone. Document 01, "The sheet, byte by byte" and "Reckoned size";
// document 02 [1] for procedures, [8] for the overflow rule, [11] for Z. Where a limit is compared with a number of
// another type, a constant of the same name is made from it there.

// Z is from 1 to this number.
pub const GREATEST_Z: u8 = 31;

// The greatest Z of document 01, up to which its figures of working words stand.
pub const EARLIER_Z: u8 = 7;

// The overflow rule is from 0 to this number.
pub const GREATEST_RULE: u8 = 2;

// How many bytes and how many name records a sheet may have.
pub const MOST_BYTES: usize = 4096;

pub const MOST_NAMES: u8 = 32;

// Where the name records begin: after Z and the overflow rule.
pub const FIRST_RECORD: usize = 2;

// How deep its term may be, and its greatest reckoned size.
pub const GREATEST_DEPTH: u8 = 32;

pub const GREATEST_SIZE: u32 = 4096;

// Where weights and sizes are held: what is over the greatest size stays over it.
pub const HELD_AT: u32 = 4097;

// How many arguments or parameters there may be.
pub const MOST_ARGUMENTS: usize = 4;

// Where ranges of bytes end, each with the first number that is outside: bytes, ids, types, counts of arguments or
// parameters, truths, operators, data of a new.
pub const BYTES: usize = 256;

pub const IDS: u8 = 255;

pub const TYPES: u8 = 5;

pub const COUNTS: u8 = 5;

pub const TRUTHS: u8 = 2;

pub const OPERATORS: u8 = 9;

pub const DATA_TYPES: u8 = 3;

// The byte of an argument type or a parameter that is not there.
pub const NOT_THERE: u8 = 255;
