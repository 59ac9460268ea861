// The moves that a waiting state takes: for each kind and argument the values below a limit, in the order of the signed
// values; and the letter of a move.
ghost use Rattle.std.specs.Prelude.{◌≡◌, ◌%◌, ◌≤◌};
ghost use Rattle.language.specs.Number.{finites};
ghost use Rattle.language.specs.Order.{code_at, rank};
ghost use Rattle.states_words.specs.inner.Moves.{place_of, letter_of, answer_limit, answer_kind, limit_of, wait_of};
ghost use Rattle.states_words.specs.inner.Moves.{zero_place, first_place, end_place, is_question};
ghost use Rattle.states_positions.specs.Row.{Long};

use crate::Wait;
use language::Numbers;
use language_codes::number::{finites, first_number, numbers};
use sheet_records::limits::BYTES;
use sheet_records::read::SHORTS;
use sheet_rows::row::{CLASS, VALUES};
use states_path::whole::WHOLE;
use states_positions::Move;
use states_positions::moves::{ASK, DONE, OK, OPENING, READ, RUN, VALUE, WRITE};
use states_positions::row::{cell, name_id, part_class, part_values};
use states_positions::types::{COMMANDS, EXPRESSIONS, question_limit};
use term_expand::expand::TERM_WORDS;

// The rank of the value 0: a rank is the signed value plus this.
pub const RANK_ZERO: usize = 128;

// The ranks of minus infinity, of infinity and of not-a-number.
const RANK_LEAST: usize = 1;

const RANK_GREATEST: usize = 254;

const RANK_NONE: usize = 255;

// A letter is kind, id, argument and rank, a byte each: what a kind, an id and an argument count.
pub const KIND_UNIT: usize = 16777216;

pub const ID_UNIT: usize = 65536;

pub const ARGUMENT_UNIT: usize = 256;

// The kinds of moves and the opening are the numbers below this.
const KIND_SPAN: usize = 8;

// How many numbers there are from -Z to Z.
fn count_of(n: Numbers) -> usize
    ensures { (result ≡ finites n) × (result ≤ 511) }
{
    finites(n) as usize
}

// The value at place r in the order of the signed values.
#[tactic(auto, unfolding(language::specs::Order::code_at))]
pub(crate) fn code_at(n: Numbers, r: usize) -> usize
    ensures { result ≡ code_at n r }
{
    let low = first_number(n);
    let all = count_of(n);
    if r < low {
        return all;
    }
    let z = n.z as usize;
    if r - low < z {
        return r - low + z + 1;
    }
    if r - low < all {
        return r - low - z;
    }
    r
}

// The place of the value 0.
#[tactic(auto, unfolding(crate::specs::inner::Moves::zero_place))]
fn zero_place(n: Numbers) -> usize
    ensures { (result ≡ zero_place n) × (result ≤ 256) }
{
    first_number(n) + n.z as usize
}

// The place from which on there are values below a limit: only the value 0 is below 1.
#[tactic(auto, unfolding(crate::specs::inner::Moves::first_place))]
pub(crate) fn first_place(n: Numbers, below: usize) -> usize
    ensures { result ≡ first_place n below }
{
    if below == 1 {
        return zero_place(n);
    }
    0
}

// The place from which on there are none.
#[tactic(auto, unfolding(crate::specs::inner::Moves::end_place))]
pub(crate) fn end_place(n: Numbers, below: usize) -> usize
    ensures { result ≡ end_place n below }
{
    if below == 1 {
        return zero_place(n) + 1;
    }
    numbers(n) as usize
}

// The rank of a value.
#[tactic(auto, unfolding(language::specs::Order::rank))]
pub(crate) fn rank_of(n: Numbers, value: usize) -> usize
    ensures { result ≡ rank n (value % 65536) }
{
    let z = n.z as usize;
    let v = value % SHORTS;
    if v <= z {
        return RANK_ZERO + v;
    }
    let all = count_of(n);
    if v < all {
        if RANK_ZERO + v < all {
            return 0;
        }
        return RANK_ZERO + v - all;
    }
    if v == all {
        return RANK_LEAST;
    }
    if v == all + 1 {
        return RANK_GREATEST;
    }
    RANK_NONE
}

// The letter of a move without the rank of its value.
#[tactic(auto, unfolding(crate::specs::inner::Moves::place_of))]
pub(crate) fn place_of(kind: usize, id: usize, arg: usize) -> usize
    ensures { result ≡ place_of kind id arg }
{
    kind % KIND_SPAN * KIND_UNIT + id % BYTES * ID_UNIT + arg % BYTES * ARGUMENT_UNIT
}

// The letter of a move.
#[tactic(auto, unfolding(crate::specs::inner::Moves::letter_of))]
pub(crate) fn letter_of(n: Numbers, m: Move) -> usize
    ensures { result ≡ letter_of n m }
{
    let place = place_of(m.kind, m.id, m.arg);
    if m.kind < VALUE {
        return place;
    }
    place + rank_of(n, m.value)
}

// How many values the answers of a kind to the question q of value x have at a type: none where the type has no such
// question or the question no such answers, and one where they carry no value.
#[tactic(auto, unfolding(crate::specs::inner::Moves::answer_limit))]
fn answer_limit(class: usize, values: usize, q: usize, x: usize, kind: usize) -> usize
    ensures { result ≡ answer_limit class values q x kind }
{
    match (class, q, kind) {
        (COMMANDS, RUN, DONE) => 1,
        (COMMANDS, _, _) => 0,
        (EXPRESSIONS, ASK, VALUE) => values,
        (EXPRESSIONS, _, _) => 0,
        (_, READ, VALUE) => values,
        (_, WRITE, OK) if x < values => 1,
        _ => 0,
    }
}

// Whether moves of a kind are questions.
#[tactic(auto, unfolding(crate::specs::inner::Moves::is_question))]
pub(crate) fn is_question(kind: usize) -> bool
    ensures { result ≡ is_question kind }
{
    matches!(kind, RUN | ASK | READ | WRITE)
}

// The kind of the answers to the question q at a type.
#[tactic(auto, unfolding(crate::specs::inner::Moves::answer_kind))]
pub(crate) fn answer_kind(class: usize, q: usize) -> usize
    ensures { result ≡ answer_kind class q }
{
    if class == COMMANDS {
        return DONE;
    }
    if q == WRITE {
        return OK;
    }
    VALUE
}

// The same for the moves of a kind at an argument of the one a state waits for; argument 0 is the name itself.
#[tactic(auto, unfolding(crate::specs::inner::Moves::limit_of))]
pub(crate) fn limit(t: &[u16; TERM_WORDS], e: Wait, kind: usize, arg: usize) -> usize
    requires { Long t.now }
    ensures { result ≡ limit_of t.now e kind arg }
{
    let at = e.at;
    if e.kind == OPENING {
        if arg == 0 {
            return question_limit(cell(t, at, CLASS), cell(t, at, VALUES), kind);
        }
        return 0;
    }
    if arg == 0 {
        return answer_limit(
            cell(t, at, CLASS),
            cell(t, at, VALUES),
            e.kind,
            e.value,
            kind,
        );
    }
    if e.count < arg {
        return 0;
    }
    question_limit(
        part_class(t, at, arg - 1),
        part_values(t, at, arg - 1),
        kind,
    )
}

// Whom the state k waits for.
#[tactic(auto, unfolding(crate::specs::inner::Moves::wait_of))]
pub(crate) fn wait_of(
    t: &[u16; TERM_WORDS],
    state: usize,
    at: usize,
    kind: usize,
    value: usize,
    count: usize,
) -> Wait
    requires { Long t.now }
    ensures { result ≡ wait_of t.now state at kind value count }
{
    let id = if kind == OPENING {
        WHOLE
    } else {
        name_id(t, at)
    };
    Wait {
        state,
        id,
        at,
        kind,
        value,
        count,
    }
}
