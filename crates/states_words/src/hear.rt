// The edges of a waiting state: the moves that it takes, in the order of their letters, and where they lead.
ghost use Rattle.std.specs.Prelude.{◌≡◌, ◌-◌, ◌≤◌};
ghost use Rattle.language.specs.Number.{numbers};
ghost use Rattle.states_path.specs.States.{sheet_at, target_of};
ghost use Rattle.states_positions.specs.MoveKind.{VALUE};
ghost use Rattle.states_words.specs.inner.Waiting.{Listening, Calling, Argument, Arguments, Answering};
ghost use Rattle.states_words.specs.inner.Rows.{with_edges, past};
ghost use Rattle.states_words.specs.inner.Moves.{value_edge, value_edges, block_edges, heard_edges, question_edges};
ghost use Rattle.states_words.specs.inner.Moves.{asked_edges, asking_of};
ghost use Rattle.states_positions.specs.Row.{Long};
ghost use Rattle.states_step.specs.walk.Shows.{TermRows};

use crate::Wait;
use crate::answers::{answer_copies, answer_either};
use crate::letters::{
    answer_kind, code_at, end_place, first_place, is_question, letter_of, limit, place_of,
};
use crate::rows::write_edge;
use language::Numbers;
use language_codes::number::numbers;
use sheet_records::limits::MOST_ARGUMENTS;
use sheet_rows::row::CLASS;
use states_names::name::waiting;
use states_path::Site;
use states_path::exits::{Ways, exit, reach, ways_of};
use states_path::levels::PATH_WORDS;
use states_path::whole::at_start;
use states_positions::Move;
use states_positions::moves::{MOVE_KINDS, OPENING, RUN, VALUE, WRITE};
use states_positions::row::{cell, part_class, part_values, sum};
use states_positions::types::question_limit;
use term_expand::expand::TERM_WORDS;

// The name itself, as an argument.
const OWN: usize = 0;
// The places of moves: the name itself and its arguments.
const PLACES: usize = 1 + MOST_ARGUMENTS;
// All pairs of a kind of move and such a place.
const BLOCKS: usize = MOVE_KINDS * PLACES;

// Where a move leads at a state that waits, to which a path of c levels leads.
fn heard(
    t: &[u16; TERM_WORDS],
    n: Numbers,
    s: Site,
    p: &[u32; PATH_WORDS],
    c: usize,
    wait: Wait,
    m: Move,
) -> usize
    requires long { Long t.now }
    requires listening { Listening t.now n s.root p.now c wait }
    ensures { result ≡ target_of s (sheet_at t.now n s.root wait.state m) }
{
    if wait.state == 0 {
        return reach(n, s, p, c, at_start(t, s.root, m));
    }
    reach(
        n,
        s,
        p,
        c,
        waiting(t, wait.at, wait.kind, wait.value, wait.count, m),
    )
}

// The edge by the value at place r, where it is below the limit.
fn hear_value(
    t: &[u16; TERM_WORDS],
    n: Numbers,
    s: Site,
    words: &mut [u32],
    p: &[u32; PATH_WORDS],
    c: usize,
    wait: Wait,
    kind: usize,
    arg: usize,
    below: usize,
    r: usize,
    e: usize,
) -> usize
    requires long { Long t.now }
    requires listening { Listening t.now n s.root p.now c wait }
    ensures returned { result ≡ past e (value_edge t.now n s wait kind arg below r) }
    ensures written { words.new ≡ with_edges words.old s.n e
        (value_edge t.now n s wait kind arg below r) }
{
    let value = code_at(n, r);
    if below <= value {
        return e;
    }
    let m = Move {
        kind,
        id: wait.id,
        arg,
        value,
    };
    write_edge(
        words,
        s.n,
        e,
        letter_of(n, m),
        heard(t, n, s, p, c, wait, m),
    );
    sum(e, 1)
}

// The edges by the values below a limit.
fn hear_values(
    t: &[u16; TERM_WORDS],
    n: Numbers,
    s: Site,
    words: &mut [u32],
    p: &[u32; PATH_WORDS],
    c: usize,
    wait: Wait,
    kind: usize,
    arg: usize,
    below: usize,
    e: usize,
) -> usize
    requires long { Long t.now }
    requires listening { Listening t.now n s.root p.now c wait }
    ensures returned { result ≡ past e (value_edges t.now n s wait kind arg below (numbers n)) }
    ensures written { words.new ≡ with_edges words.old s.n e
        (value_edges t.now n s wait kind arg below (numbers n)) }
{
    let first = first_place(n, below);
    let end = end_place(n, below);
    let mut next = e;
    for r in first..end {
        next = hear_value(t, n, s, words, p, c, wait, kind, arg, below, r, next);
    }
    next
}

// The edges by the moves of a kind at an argument.
fn hear_block(
    t: &[u16; TERM_WORDS],
    n: Numbers,
    s: Site,
    words: &mut [u32],
    p: &[u32; PATH_WORDS],
    c: usize,
    wait: Wait,
    kind: usize,
    arg: usize,
    e: usize,
) -> usize
    requires long { Long t.now }
    requires listening { Listening t.now n s.root p.now c wait }
    ensures returned { result ≡ past e (block_edges t.now n s wait kind arg) }
    ensures written { words.new ≡ with_edges words.old s.n e
        (block_edges t.now n s wait kind arg) }
{
    let below = limit(t, wait, kind, arg);
    if below == 0 {
        return e;
    }
    hear_values(t, n, s, words, p, c, wait, kind, arg, below, e)
}

// The edges by the questions of a kind at an argument of the name that a state waits for.
fn hear_argument(
    t: &[u16; TERM_WORDS],
    n: Numbers,
    s: Site,
    words: &mut [u32],
    p: &[u32; PATH_WORDS],
    c: usize,
    wait: Wait,
    kind: usize,
    arg: usize,
    e: usize,
) -> usize
    requires long { Long t.now }
    requires listening { Listening t.now n s.root p.now c wait × Argument wait arg }
    ensures returned { result ≡ past e (block_edges t.now n s wait kind arg) }
    ensures written { words.new ≡ with_edges words.old s.n e
        (block_edges t.now n s wait kind arg) }
{
    let j = arg - 1;
    let below = question_limit(part_class(t, wait.at, j), part_values(t, wait.at, j), kind);
    if below == 0 {
        return e;
    }
    hear_values(t, n, s, words, p, c, wait, kind, arg, below, e)
}

// The edges by the questions of a kind at the first arguments.
fn hear_questions(
    t: &[u16; TERM_WORDS],
    n: Numbers,
    s: Site,
    words: &mut [u32],
    p: &[u32; PATH_WORDS],
    c: usize,
    wait: Wait,
    kind: usize,
    count: usize,
    e: usize,
) -> usize
    requires long { Long t.now }
    requires listening { Listening t.now n s.root p.now c wait × Arguments wait count }
    ensures returned { result ≡ past e (question_edges t.now n s wait kind count) }
    ensures written { words.new ≡ with_edges words.old s.n e
        (question_edges t.now n s wait kind count) }
{
    if !is_question(kind) {
        return e;
    }
    let mut next = e;
    for j in 0..count {
        next = hear_argument(t, n, s, words, p, c, wait, kind, j + 1, next);
    }
    next
}

// The same for the kinds from a first one to an end, which is left out.
fn hear_kinds(
    t: &[u16; TERM_WORDS],
    n: Numbers,
    s: Site,
    words: &mut [u32],
    p: &[u32; PATH_WORDS],
    c: usize,
    wait: Wait,
    count: usize,
    first: usize,
    end: usize,
    e: usize,
) -> usize
    requires long { Long t.now }
    requires listening { Listening t.now n s.root p.now c wait × (Arguments wait count × (first ≤ end)) }
    ensures returned { result ≡ past e (asked_edges t.now n s wait count first (end - first)) }
    ensures written { words.new ≡ with_edges words.old s.n e
        (asked_edges t.now n s wait count first (end - first)) }
{
    let mut next = e;
    for kind in first..end {
        next = hear_questions(t, n, s, words, p, c, wait, kind, count, next);
    }
    next
}

// The edge by the answer at place r of the name that a state waits for, where it is below the limit.
fn hear_answer(
    t: &[u16; TERM_WORDS],
    n: Numbers,
    s: Site,
    words: &mut [u32],
    p: &[u32; PATH_WORDS],
    c: usize,
    wait: Wait,
    kind: usize,
    below: usize,
    r: usize,
    e: usize,
) -> usize
    requires long { Long t.now }
    requires answering { Answering t.now n s p.now c wait kind below }
    ensures returned { result ≡ past e (value_edge t.now n s wait kind 0 below r) }
    ensures written { words.new ≡ with_edges words.old s.n e
        (value_edge t.now n s wait kind 0 below r) }
{
    let value = code_at(n, r);
    if below <= value {
        return e;
    }
    let m = Move {
        kind,
        id: wait.id,
        arg: OWN,
        value,
    };
    write_edge(
        words,
        s.n,
        e,
        letter_of(n, m),
        exit(n, s, p, c, kind, value, 0, 0),
    );
    sum(e, 1)
}

// The edges by the answers below a limit of the name that a state waits for, each led on its own.
fn hear_each(
    t: &[u16; TERM_WORDS],
    n: Numbers,
    s: Site,
    words: &mut [u32],
    p: &[u32; PATH_WORDS],
    c: usize,
    wait: Wait,
    kind: usize,
    below: usize,
    e: usize,
) -> usize
    requires long { Long t.now }
    requires answering { Answering t.now n s p.now c wait kind below }
    ensures returned { result ≡ past e (value_edges t.now n s wait kind 0 below (numbers n)) }
    ensures written { words.new ≡ with_edges words.old s.n e
        (value_edges t.now n s wait kind 0 below (numbers n)) }
{
    let all = numbers(n) as usize;
    let mut next = e;
    for r in 0..all {
        next = hear_answer(t, n, s, words, p, c, wait, kind, below, r, next);
    }
    next
}

// The edge by the one answer of the name that a state waits for, which carries no value.
fn hear_single(
    t: &[u16; TERM_WORDS],
    n: Numbers,
    s: Site,
    words: &mut [u32],
    p: &[u32; PATH_WORDS],
    c: usize,
    wait: Wait,
    kind: usize,
    e: usize,
) -> usize
    requires { Answering t.now n s p.now c wait kind 1 }
    ensures returned { result ≡ past e (value_edges t.now n s wait kind 0 1 (numbers n)) }
    ensures written { words.new ≡ with_edges words.old s.n e
        (value_edges t.now n s wait kind 0 1 (numbers n)) }
{
    let m = Move {
        kind,
        id: wait.id,
        arg: OWN,
        value: 0,
    };
    write_edge(
        words,
        s.n,
        e,
        letter_of(n, m),
        exit(n, s, p, c, kind, 0, 0, 0),
    );
    sum(e, 1)
}

// The edges by the values below a limit with which the name answers that a state waits for.
fn hear_results(
    t: &[u16; TERM_WORDS],
    n: Numbers,
    s: Site,
    words: &mut [u32],
    p: &[u32; PATH_WORDS],
    c: usize,
    wait: Wait,
    below: usize,
    e: usize,
) -> usize
    requires long { Long t.now }
    requires answering { Answering t.now n s p.now c wait VALUE below }
    ensures returned { result ≡ past e (value_edges t.now n s wait VALUE 0 below (numbers n)) }
    ensures written { words.new ≡ with_edges words.old s.n e
        (value_edges t.now n s wait VALUE 0 below (numbers n)) }
{
    let place = place_of(VALUE, wait.id, OWN);
    let led = ways_of(n, s, p, c, below);
    match led {
        Ways::Copies { to, stride } => { answer_copies(n, words, s.n, place, below, to, stride, e) }
        Ways::Either { value, yes, no } => {
            answer_either(n, words, s.n, place, below, value, yes, no, e)
        }
        Ways::Each => hear_each(t, n, s, words, p, c, wait, VALUE, below, e),
    }
}

// The edges by the answers of the name that a state waits for.
fn hear_answers(
    t: &[u16; TERM_WORDS],
    n: Numbers,
    s: Site,
    words: &mut [u32],
    p: &[u32; PATH_WORDS],
    c: usize,
    wait: Wait,
    kind: usize,
    e: usize,
) -> usize
    requires term_rows { TermRows t.now }
    requires listening { Listening t.now n s.root p.now c wait × Calling wait }
    ensures returned { result ≡ past e (block_edges t.now n s wait kind 0) }
    ensures written { words.new ≡ with_edges words.old s.n e
        (block_edges t.now n s wait kind 0) }
{
    let below = limit(t, wait, kind, OWN);
    if below == 0 {
        return e;
    }
    if below == 1 {
        return hear_single(t, n, s, words, p, c, wait, kind, e);
    }
    hear_results(t, n, s, words, p, c, wait, below, e)
}

// The edges by all moves: the kinds from the first to the last, arguments 0 to 4.
fn hear_all(
    t: &[u16; TERM_WORDS],
    n: Numbers,
    s: Site,
    words: &mut [u32],
    p: &[u32; PATH_WORDS],
    c: usize,
    wait: Wait,
    e: usize,
) -> usize
    requires long { Long t.now }
    requires listening { Listening t.now n s.root p.now c wait }
    ensures returned { result ≡ past e (heard_edges t.now n s wait 35) }
    ensures written { words.new ≡ with_edges words.old s.n e
        (heard_edges t.now n s wait 35) }
{
    let mut next = e;
    for b in 0..BLOCKS {
        next = hear_block(t, n, s, words, p, c, wait, b / PLACES, b % PLACES, next);
    }
    next
}

// How many arguments of a name have moves, where so many may be asked.
#[tactic(auto, unfolding(crate::specs::inner::Moves::asking_of))]
fn asking(count: usize) -> usize
    ensures { result ≡ asking_of count }
{
    count.min(MOST_ARGUMENTS)
}

// The edges of a state that waits for a name: it takes the questions of its arguments and, in their place among the
// kinds, its answers.
fn hear_called(
    t: &[u16; TERM_WORDS],
    n: Numbers,
    s: Site,
    words: &mut [u32],
    p: &[u32; PATH_WORDS],
    c: usize,
    wait: Wait,
    e: usize,
) -> usize
    requires long { Long t.now }
    requires listening { Listening t.now n s.root p.now c wait × Calling wait }
    ensures returned { result ≡ past e (heard_edges t.now n s wait 35) }
    ensures written { words.new ≡ with_edges words.old s.n e
        (heard_edges t.now n s wait 35) }
{
    let own = answer_kind(cell(t, wait.at, CLASS), wait.kind);
    let count = asking(wait.count);
    let asked = hear_kinds(t, n, s, words, p, c, wait, count, RUN, own, e);
    let answered = hear_block(t, n, s, words, p, c, wait, own, OWN, asked);
    hear_kinds(
        t,
        n,
        s,
        words,
        p,
        c,
        wait,
        count,
        own + 1,
        WRITE + 1,
        answered,
    )
}

// The edges of a waiting state: a name that may ask no argument takes only its answers.
pub(crate) fn hear(
    t: &[u16; TERM_WORDS],
    n: Numbers,
    s: Site,
    words: &mut [u32],
    p: &[u32; PATH_WORDS],
    c: usize,
    wait: Wait,
    e: usize,
) -> usize
    requires term_rows { TermRows t.now }
    requires listening { Listening t.now n s.root p.now c wait }
    ensures returned { result ≡ past e (heard_edges t.now n s wait 35) }
    ensures written { words.new ≡ with_edges words.old s.n e
        (heard_edges t.now n s wait 35) }
{
    if wait.kind == OPENING {
        return hear_all(t, n, s, words, p, c, wait, e);
    }
    if wait.count == 0 {
        let own = answer_kind(cell(t, wait.at, CLASS), wait.kind);
        return hear_answers(t, n, s, words, p, c, wait, own, e);
    }
    hear_called(t, n, s, words, p, c, wait, e)
}
