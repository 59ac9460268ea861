// What a call must meet beside that its sheets are in order: like headings, enough working words, enough play space.
#![tactic(auto)]

// Whether two headings are the same.
pub mod heading;
// How many words are asked for.
pub mod lent;
// The refusal of two sheets together.
pub mod pair;
