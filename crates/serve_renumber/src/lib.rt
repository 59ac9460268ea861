// The service renumber, document 02 [4]: a sheet in which each inner name that hides an outer one gets another id.
#![tactic(auto)]

mod bytes;
mod part;
pub mod renumber;
mod scope;
mod step;
mod taken;
mod work;
