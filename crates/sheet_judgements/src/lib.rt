// Judgements of bytes, above all of ids: which are free, which hide others.
#![tactic(auto)]

pub mod judgement;
