// The positions of a term by number, what is done at one, and the table of parts that tells it.
//
// A position of a term is a number below its weight. A type is its class and the number of values of its data, and a
// value is its code.
#![tactic(auto)]

// The kinds of moves, and the roles of parts.
pub mod moves;
pub mod roles;
// The table, and numbers that may be too large.
pub mod row;
// Questions and answers by number.
pub mod types;

// A move: its kind, the place where it is made (argument 0 is the name itself) and its value.
#[derive(Clone, Copy)]
pub struct Move {
    pub kind: usize,
    pub id: usize,
    pub arg: usize,
    pub value: usize,
}

// What is done at a position: a silent step, an exit with an answer, a move that the term says, a wait in which it
// hears the moves of the name at a place, whose first `count` arguments may be asked, or nothing. A block is 0 where no
// private variable is written, else 1 more than the row of the variable's new.
#[derive(Clone, Copy)]
pub enum Out {
    Go {
        next: usize,
        block: usize,
        set: usize,
    },
    Exit {
        kind: usize,
        value: usize,
        block: usize,
        set: usize,
    },
    Say {
        said: Move,
        next: usize,
    },
    Hear {
        at: usize,
        kind: usize,
        value: usize,
        count: usize,
    },
    Stuck,
}

// A silent step: the position to which it goes, and the private variable that it writes, by its block as in Out.
#[derive(Drop)]
pub struct Silent {
    pub next: usize,
    pub block: usize,
    pub set: usize,
}

// What a part's step becomes in the whole: its positions begin at base, and its exits go by the role (roles.rt), which
// says what a to d are.
#[derive(Drop)]
pub struct Frame {
    pub role: usize,
    pub base: usize,
    pub a: usize,
    pub b: usize,
    pub c: usize,
    pub d: usize,
}

// Where a position is: here, or at number k of a part, which is asked a question.
#[derive(Drop)]
pub enum Spot {
    Here {
        out: Out,
    },
    Inside {
        part: usize,
        kind: usize,
        value: usize,
        k: usize,
        f: Frame,
    },
}
