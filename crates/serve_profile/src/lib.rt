// The service profile, document 02 [13]: a sheet checked, and its expressions held to have no side effects.
#![tactic(auto)]

mod offence;
pub mod profile;
