// The kinds of moves, as a sheet's records have them.
pub const RUN: usize = 0;

pub const DONE: usize = 1;

pub const ASK: usize = 2;

pub const READ: usize = 3;

pub const OK: usize = 4;

pub const VALUE: usize = 5;

pub const WRITE: usize = 6;

// How many kinds of moves there are.
pub const MOVE_KINDS: usize = 7;

// Not a move's: the first question of a play, which the whole term waits for; and no move at all.
pub const OPENING: usize = 7;

pub const NO_MOVE: usize = 255;
