// The answers of the services as words. An answer is eleven words: its kind and its values, five words; then the names
// used, three words for the sheet checked or the old one and three for the new one. A count or a place takes two words,
// its low and its high half, so that it is given whole.
#![tactic(auto)]

// The halves of a number.
mod half;
// The kinds of answers.
mod kind;
// An answer written, where there is room for it.
pub mod write;
// The answer of check.
pub mod check;
// The answer of follow.
pub mod follow;
// The answer of compare.
pub mod compare;
// The answer of look.
pub mod look;
// The answer of renumber.
pub mod renumber;
// The answer of card.
pub mod card;
