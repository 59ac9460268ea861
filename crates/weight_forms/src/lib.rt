// The arithmetic of weights as forms, document 02 [1]: a form is a constant and a coefficient for each enclosing
// parameter, all held at 4,097, in words of the table of parts.
#![tactic(auto)]

pub mod read;
pub mod set;
pub mod sum;
pub mod table;
mod words;
