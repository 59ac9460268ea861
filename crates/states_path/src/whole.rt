// What a state of a whole sheet does: the start waits for the question, the positions of the term stand in a copy for
// each question, an answer is said and leads to the end.
ghost use Rattle.std.specs.Prelude.{◌≡◌};
ghost use Rattle.states_path.specs.States.{opened_of, at_start, replied_of, after_of, spots_of};
ghost use Rattle.states_names.specs.Name.{no_move};
ghost use Rattle.states_path.specs.Kept.{sheet_spot};
ghost use Rattle.states_positions.specs.Row.{Long};

use sheet_rows::row::{CLASS, VALUES, WEIGHT};
use states_names::name::arg_in;
use states_positions::moves::{DONE, NO_MOVE, OK, OPENING, VALUE};
use states_positions::row::{cell, mul_add, sum};
use states_positions::types::{COMMANDS, answers, question_number, questions};
use states_positions::{Move, Out, Spot};
use term_expand::expand::TERM_WORDS;

// The id that stands for the whole term.
pub const WHOLE: usize = 255;

// The first question enters its copy of the term.
#[tactic(auto, unfolding(crate::specs::States::opened_of))]
fn opened(t: &[u16; TERM_WORDS], root: usize, m: Move) -> Out
    requires { Long t.now }
    ensures { result ≡ opened_of t.now root m }
{
    if m.id != WHOLE {
        return Out::Stuck;
    }
    if m.arg != 0 {
        return Out::Stuck;
    }
    let i = question_number(cell(t, root, CLASS), cell(t, root, VALUES), m.kind, m.value);
    if i == 0 {
        return Out::Stuck;
    }
    Out::Go {
        next: mul_add(i - 1, cell(t, root, WEIGHT), 1),
        block: 0,
        set: 0,
    }
}

// The start: it waits for the question, or what follows the move that is given.
#[tactic(auto, unfolding(crate::specs::States::at_start))]
pub fn at_start(t: &[u16; TERM_WORDS], root: usize, m: Move) -> Out
    requires { Long t.now }
    ensures { result ≡ at_start t.now root m }
{
    if m.kind == NO_MOVE {
        return Out::Hear {
            at: root,
            kind: OPENING,
            value: 0,
            count: 0,
        };
    }
    opened(t, root, m)
}

// Answer k of a type, at the place of the whole term.
#[tactic(auto, unfolding(crate::specs::States::replied_of))]
fn replied(class: usize, values: usize, k: usize) -> Move
    ensures { result ≡ replied_of class values k }
{
    if class == COMMANDS {
        return Move {
            kind: DONE,
            id: WHOLE,
            arg: 0,
            value: 0,
        };
    }
    if values <= k {
        return Move {
            kind: OK,
            id: WHOLE,
            arg: 0,
            value: 0,
        };
    }
    Move {
        kind: VALUE,
        id: WHOLE,
        arg: 0,
        value: k,
    }
}

// The first of the states that answer.
#[tactic(auto, unfolding(crate::specs::States::after_of))]
pub(crate) fn after_of(t: &[u16; TERM_WORDS], root: usize) -> usize
    requires { Long t.now }
    ensures { result ≡ after_of t.now root }
{
    mul_add(
        questions(cell(t, root, CLASS), cell(t, root, VALUES)),
        cell(t, root, WEIGHT),
        1,
    )
}

// How many states the sheet has but the end.
#[tactic(auto, unfolding(crate::specs::States::spots_of))]
pub fn spots_of(t: &[u16; TERM_WORDS], root: usize) -> usize
    requires { Long t.now }
    ensures { result ≡ spots_of t.now root }
{
    sum(
        after_of(t, root),
        answers(cell(t, root, CLASS), cell(t, root, VALUES)),
    )
}

// Where the state k is: the start, a copy of the term, or an answer.
#[tactic(auto, unfolding(crate::specs::Kept::sheet_spot))]
pub(crate) fn sheet_spot(t: &[u16; TERM_WORDS], root: usize, k: usize) -> Spot
    requires { Long t.now }
    ensures { result ≡ sheet_spot t.now root k no_move }
{
    if k == 0 {
        let none = Move {
            kind: NO_MOVE,
            id: 0,
            arg: 0,
            value: 0,
        };
        return Spot::Here {
            out: at_start(t, root, none),
        };
    }
    let after = after_of(t, root);
    if k < after {
        return arg_in(
            root,
            cell(t, root, CLASS),
            cell(t, root, VALUES),
            cell(t, root, WEIGHT),
            k - 1,
            1,
            after,
        );
    }
    let said = replied(cell(t, root, CLASS), cell(t, root, VALUES), k - after);
    Spot::Here {
        out: Out::Say {
            said,
            next: spots_of(t, root),
        },
    }
}
