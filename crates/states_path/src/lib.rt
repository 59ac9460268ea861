// The states of a whole sheet by number, and the path of parts in which a state lies: kept from state to state, it says
// what the state does and where its steps lead.
#![tactic(auto)]

// What a state of a whole sheet does.
pub mod whole;
// The words of a path: the parts in which a state lies, from the whole term down.
pub mod levels;
// From the path to a state to the path to the next, and what is done there.
pub mod path;
// Where a step leads in the whole sheet.
pub mod exits;

use states_positions::{Frame, Out};

// Where the automaton of a sheet stands: the root in its table of parts, how many states the words have, and its
// first state there.
#[derive(Clone, Copy)]
pub struct Site {
    pub root: usize,
    pub n: usize,
    pub o: usize,
}

// A level of the path to a state: a part, asked the question of this kind and value, whose first state is base and
// which is the same up to the state `end`; the levels up to the innermost block outside it, those up to the one where
// its exits lead, and what its steps become in the part above it.
#[derive(Drop)]
pub(crate) struct Level {
    pub part: usize,
    pub kind: usize,
    pub value: usize,
    pub base: usize,
    pub end: usize,
    pub outer: usize,
    pub up: usize,
    pub f: Frame,
}

// How far a path goes, and what is done there.
#[derive(Clone, Copy)]
pub struct Stop {
    pub levels: usize,
    pub out: Out,
}
