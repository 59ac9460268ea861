// The rows that records leave in the table of parts.
#![tactic(auto)]

pub mod class;
pub mod kind;
pub mod pack;
pub mod row;
pub mod short_kind;
