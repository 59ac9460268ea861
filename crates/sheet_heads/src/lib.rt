// The heads of records: the kind byte and the body of a part of a term, every byte judged.
#![tactic(auto)]

pub mod head;
