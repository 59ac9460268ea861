// Records of a sheet: their kinds, the limits of sheets, the standings of ids, and the numbers of refusals.
#![tactic(auto)]

pub mod edition;
pub mod kind;
pub mod limits;
pub mod read;
pub mod refusal;
pub mod standing;
pub mod store;
