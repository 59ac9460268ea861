// The arithmetic of the language.
#![tactic(auto)]

// The nine operators on codes.
pub mod operator;
