// A whole sheet judged: read, weighed and held to the greatest size; the service check.
#![tactic(auto)]

pub mod check;
pub mod judge;
pub mod mark;
pub mod size;
