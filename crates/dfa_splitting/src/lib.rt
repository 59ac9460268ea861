// Classes of states split by the letters that lead into one class. The words are those of crate dfa_classes; in place of
// the copy stand the signs of states, word g + 3 n + p that of the state p.
#![tactic(auto)]

// By which letters a state goes into a class.
mod into;
// Signs made of these letters, by which most states are told apart at once.
mod sign;
// Classes split by these letters.
pub mod split;
// The words of classes follow the places.
pub mod rename;
