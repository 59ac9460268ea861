// What the exits of a part become in the whole; a to d are the fields of the part's frame.
// The whole exits so.
pub const AS_IS: usize = 0;
// Done leads to a.
pub const THEN: usize = 1;
// True leads to a; false leads to b or, where b is 0, out with done.
pub const TEST: usize = 2;
// A value below c leads to a + value * b.
pub const SELECT: usize = 3;
// A value below c is the right operand of the operator b, whose left operand is a.
pub const RIGHT: usize = 4;
// Ok leads out with done.
pub const ASSIGNED: usize = 5;
// An answer to question d of a type of class b with c values leads to its reply; the replies begin at a.
pub const ARGUMENT: usize = 6;
// The block's new has the row a - 1; its variable has, in this copy of the block, which weighs b, the value c.
pub const BLOCK: usize = 7;
