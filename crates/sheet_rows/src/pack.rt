// Where one number ends and the next begins in a word of the table.

// The detail of a use of a name is its id, this many times the number of its arguments, which is below COUNT_SPAN, and
// ONCE where the name asks once.
pub const ID_SPAN: usize = 256;

pub const COUNT_SPAN: usize = 8;

pub const ONCE: usize = 2048;

// The detail of a use of a procedure is the place of the procedure's record and this many times the number of
// arguments.
pub const PLACE_SPAN: usize = 4096;

// A mark is what its part comes down to and, of a procedure, this many times which arguments it uses.
pub const COME_SPAN: usize = 128;
