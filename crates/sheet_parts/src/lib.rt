// What follows from the record of a part: which types its parts may have and which it has itself, the scopes in it, and
// the numbers of values, questions and answers.
#![tactic(auto)]

pub mod scope;
pub mod typing;
pub mod weight;
