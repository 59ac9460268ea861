// Values, operators, terms, plays and weights of the language.
#![tactic(auto)]

// The nine operators by number.
pub mod operator;

// The range and the overflow rule: bytes 0 and 1 of a sheet.
#[derive(Clone, Copy)]
pub struct Numbers {
    pub z: u8,
    pub rule: u8,
}
