// The kinds of answers: numbers, as the C interface has them.
pub(crate) const REFUSED: u32 = 0;

pub(crate) const ACCEPTED: u32 = 1;

pub(crate) const FOLLOWS: u32 = 2;

pub(crate) const SAME: u32 = 3;

pub(crate) const APART: u32 = 4;

pub(crate) const RENUMBERED: u32 = 5;

pub(crate) const SO_FAR: u32 = 6;

pub(crate) const CARD: u32 = 7;
