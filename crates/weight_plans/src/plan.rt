// What a record's form is made of: a first form, and its parts with their factors.
ghost use Rattle.std.specs.Prelude.{◌≡◌, ◌<◌};
ghost use Rattle.weight_theory.specs.Plan.{parts_of, own_of, factor_of, extra_of};
ghost use Rattle.weight_theory.specs.Step.{started};

use crate::row::{short, short_of, term_form};
use sheet_records::limits::MOST_ARGUMENTS;
use sheet_rows::class::{answers_by, questions_by};
use sheet_rows::kind::{
    ASSIGN, FETCH, IF, NAME, NEW, OPERATE, PARAMETER, PRIVATE, ROUTINE, SEQUENCE, WHILE,
};
use sheet_rows::pack::{COUNT_SPAN, ID_SPAN, ONCE, PLACE_SPAN};
use sheet_rows::row::{CLASS, PARTS, VALUES, word_of};
use weight_forms::read::coefficient;
use weight_forms::set::{set_constant, set_lower, set_unit};

// The greatest number of a parameter.
const LAST_PARAMETER: usize = 127;

// How many parts a record has.
#[tactic(auto, unfolding(weight_theory::specs::Plan::parts_of))]
pub fn parts_of(kind: usize, detail: usize) -> usize
    ensures { result ≡ parts_of kind detail }
{
    match kind {
        NAME => (detail / ID_SPAN % COUNT_SPAN).min(MOST_ARGUMENTS),
        FETCH | NEW => 1,
        OPERATE | ASSIGN | SEQUENCE | WHILE => 2,
        IF => 3,
        ROUTINE => (detail / PLACE_SPAN).min(MOST_ARGUMENTS),
        _ => 0,
    }
}

// The weight of a record without its parts; a name that asks once weighs one more.
#[tactic(auto, unfolding(weight_theory::specs::Plan::own_of))]
pub fn own_of(kind: usize, detail: usize) -> u32
    ensures { result ≡ own_of kind detail }
{
    match kind {
        NAME => 2 + (detail / ONCE % 2) as u32,
        PRIVATE => 2,
        _ if kind < NAME => 1,
        _ => 0,
    }
}

// A form becomes that of a record without its parts; k is the number of the procedure that a use means.
#[tactic(auto, unfolding(weight_theory::specs::Step::started))]
pub fn start(t: &mut [u16], row: usize, kind: usize, detail: usize, k: usize)
    requires { (row < 65536) × (k < 65536) }
    ensures { t.new ≡ started kind detail k row t.old }
{
    // constants, operators, commands, names and variables
    if kind < PARAMETER {
        set_constant(t, row, own_of(kind, detail));
        return;
    }
    // parameters, then uses of procedures
    if kind == PARAMETER {
        let s = detail.min(LAST_PARAMETER);
        set_unit(t, row, s);
        return;
    }
    let from = term_form(t, detail);
    set_lower(t, row, from, k);
}

// By what the form of part j, which is at a place, is multiplied.
#[tactic(auto, unfolding(weight_theory::specs::Plan::factor_of))]
pub fn factor_of(
    t: &[u16],
    kind: usize,
    detail: usize,
    k: usize,
    at: usize,
    place: usize,
    j: usize,
) -> u32
    requires { (detail < 65536) × (k < 65536) × (at < 65536) × (place < 65536) × (j < 4) }
    ensures { result ≡ factor_of t.now kind detail k at place j }
{
    match kind {
        // operators (definition 14)
        OPERATE if j == 0 => 1,
        OPERATE => short_of(t, word_of(t, at, PARTS), VALUES),
        // application (definition 22), and uses of procedures
        NAME => questions_by(short_of(t, place, CLASS), short_of(t, place, VALUES)),
        ROUTINE => coefficient(t, term_form(t, detail), k + j),
        // variables (definitions 24 to 26): assign and new
        ASSIGN if j == 0 => short_of(t, place, VALUES),
        NEW => short(detail),
        _ => 1,
    }
}

// What the part at a place adds besides.
#[tactic(auto, unfolding(weight_theory::specs::Plan::extra_of))]
pub fn extra_of(t: &[u16], kind: usize, place: usize) -> u32
    requires { place < 65536 }
    ensures { result ≡ extra_of t.now kind place }
{
    if kind == NAME {
        return answers_by(short_of(t, place, CLASS), short_of(t, place, VALUES));
    }
    0
}
