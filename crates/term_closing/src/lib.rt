// The row that a record of the table of parts becomes once its parts have theirs: weight, detail, the rows of its parts.
#![tactic(auto)]

// Words of the table of parts, of rows and of slots.
pub mod words;
// The row itself.
pub mod close;
