// The reader of sheets: from bytes to the parts of a term, or a refusal.
#![tactic(auto)]

mod close;
mod heading;
pub mod names;
pub mod note;
mod number;
mod part;
pub mod reading;
