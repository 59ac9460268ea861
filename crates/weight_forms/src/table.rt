// The forms on the stack of the table of parts, from FORMS on. Word 0 of a form says how many coefficients it has, its
// width; word 1 is the constant, word 2 + s the coefficient of the parameter of number s.

// The words of a form.
pub(crate) const WIDTH: usize = 130;

// How many forms there may be.
pub const MOST_FORMS: usize = 100;

// How many parameters may enclose a part.
pub const MOST_PARAMETERS: usize = 128;

// Where the width of a form stands, its constant, and its first coefficient.
pub(crate) const COUNT: usize = 0;

pub(crate) const CONSTANT: usize = 1;

pub(crate) const COEFFICIENTS: usize = 2;
