// The weight of a record of a term with procedures, document 02 [1]: reckoned from the forms of its parts while the term
// is read, without expanding it, with marks of the parts for the expansion.
#![tactic(auto)]

pub mod record;
