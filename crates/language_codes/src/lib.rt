// Values as the code holds them, under every overflow rule: codes, bytes, signed numbers.
#![tactic(auto)]

// Numbers from -Z to Z, their codes and their bytes.
pub mod number;
// Exact signed arithmetic.
pub mod exact;
