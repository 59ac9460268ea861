// What a record is weighed and marked by: its row, the factors of its parts, what they come down to.
#![tactic(auto)]

// Words of rows and of the stack of forms.
pub mod row;
// Marks of parts.
pub mod mark;
// Own weight, and how each part adds to it.
pub mod plan;
// The weight of a whole term.
pub mod term;
