// Names: their positions are the question to them, the wait for their moves, of a name that asks once the wait for its
// answer alone, the positions of their arguments, a copy for each question, and the replies of their arguments.
ghost use Rattle.std.specs.Prelude.{◌≡◌};
ghost use Rattle.states_names.specs.Name.{said_of, framed_of, copies_of, arg_spots, reply_here, reply_of, arg_here, in_args};
ghost use Rattle.states_names.specs.Name.{hear_answer, hear_question, listen_of, at_wait, in_name, no_move, inner_of};
ghost use Rattle.states_names.specs.Name.{again_of, spent_of};
ghost use Rattle.states_positions.specs.Row.{Long};

use sheet_rows::row::{CLASS, VALUES};
use states_positions::moves::{DONE, NO_MOVE, OK, VALUE};
use states_positions::roles::ARGUMENT;
use states_positions::row::{
    cell, mul_add, name_count, name_id, name_spent, part_at, part_class, part_values, part_weight,
    sum,
};
use states_positions::types::{
    COMMANDS, answer_number, answers, question_kind, question_number, question_value, questions,
};
use states_positions::{Frame, Move, Out, Spot};
use term_expand::expand::TERM_WORDS;

// The first positions of a name: its question is put, its moves are waited for; where it has no second wait, its
// arguments begin.
const CALL: usize = 0;

const WAIT: usize = 1;

const INNER: usize = 2;

// Where the arguments of a name begin. Two names of two definitions over sum: spent(t, at, INNER) would be no plainer.
#[tactic(auto, unfolding(crate::specs::Name::inner_of))]
fn inner(t: &[u16; TERM_WORDS], at: usize) -> usize
    requires { Long t.now }
    ensures { result ≡ inner_of t.now at }
{
    sum(INNER, name_spent(t, at))
}

// Where a name waits after the answer of an argument.
#[tactic(auto, unfolding(crate::specs::Name::again_of))]
fn after(t: &[u16; TERM_WORDS], at: usize) -> usize
    requires { Long t.now }
    ensures { result ≡ again_of t.now at }
{
    sum(WAIT, name_spent(t, at))
}

// A move is said, and the name waits at a position.
fn said(kind: usize, id: usize, arg: usize, value: usize, next: usize) -> Out
    ensures { result ≡ said_of kind id arg value next }
{
    let said = Move {
        kind,
        id,
        arg,
        value,
    };
    Out::Say { said, next }
}

// A frame.
pub fn framed(role: usize, base: usize, a: usize, b: usize, c: usize, d: usize) -> Frame
    ensures { result ≡ framed_of role base a b c d }
{
    Frame {
        role,
        base,
        a,
        b,
        c,
        d,
    }
}

// How many positions argument j has: its weight for each question.
#[tactic(auto, unfolding(crate::specs::Name::copies_of))]
fn copies(t: &[u16; TERM_WORDS], at: usize, j: usize) -> usize
    requires { Long t.now }
    ensures { result ≡ copies_of t.now at j }
{
    mul_add(
        questions(part_class(t, at, j), part_values(t, at, j)),
        part_weight(t, at, j),
        0,
    )
}

// How many positions the first n arguments have, counted from the last one back.
#[tactic(auto, using(crate::proofs::Steps::spots_step))]
fn spots(t: &[u16; TERM_WORDS], at: usize, n: usize) -> usize
    requires { Long t.now }
    ensures { result ≡ arg_spots t.now at 0 n }
{
    let mut all = 0;
    for j in (0..n).rev() {
        all = sum(copies(t, at, j), all);
    }
    all
}

// The answer of number k of an argument, after which the name waits at the position `next`.
#[tactic(auto, unfolding(crate::specs::Name::reply_here))]
fn reply_here(id: usize, class: usize, values: usize, arg: usize, k: usize, next: usize) -> Out
    ensures { result ≡ reply_here id class values arg k next }
{
    if class == COMMANDS {
        return said(DONE, id, arg, 0, next);
    }
    if values <= k {
        return said(OK, id, arg, 0, next);
    }
    said(VALUE, id, arg, k, next)
}

// Reply k of n arguments from argument j on.
#[tactic(auto, using(crate::proofs::Steps::reply_step))]
fn reply(
    t: &[u16; TERM_WORDS],
    id: usize,
    at: usize,
    j: usize,
    n: usize,
    k: usize,
    next: usize,
) -> Out
    requires { Long t.now }
    ensures { result ≡ reply_of t.now id at j n k next }
{
    let mut arg = j;
    let mut rest = k;
    for _ in 0..n {
        let class = part_class(t, at, arg);
        let values = part_values(t, at, arg);
        let w = answers(class, values);
        arg = sum(arg, 1);
        if rest < w {
            return reply_here(id, class, values, arg, rest, next);
        }
        rest -= w;
    }
    Out::Stuck
}

// Position k of an argument, whose positions begin at base and whose replies at after.
#[tactic(auto, unfolding(crate::specs::Name::arg_here))]
pub fn arg_in(
    part: usize,
    class: usize,
    values: usize,
    w: usize,
    k: usize,
    base: usize,
    after: usize,
) -> Spot
    ensures { result ≡ arg_here part class values w k base after }
{
    if w == 0 {
        return Spot::Here { out: Out::Stuck };
    }
    let i = k / w;
    let kind = question_kind(class, i);
    let value = question_value(class, i);
    let f = framed(ARGUMENT, mul_add(i, w, base), after, class, values, i);
    Spot::Inside {
        part,
        kind,
        value,
        k: k % w,
        f,
    }
}

// Position k of n arguments from argument j on; their positions begin at base, their replies at after.
#[tactic(auto, using(crate::proofs::Steps::args_step))]
fn in_args(
    t: &[u16; TERM_WORDS],
    at: usize,
    j: usize,
    n: usize,
    k: usize,
    base: usize,
    after: usize,
) -> Spot
    requires { Long t.now }
    ensures { result ≡ in_args t.now at j n k base after }
{
    let mut arg = j;
    let mut rest = k;
    let mut start = base;
    let mut replies = after;
    for _ in 0..n {
        let class = part_class(t, at, arg);
        let values = part_values(t, at, arg);
        let all = copies(t, at, arg);
        if rest < all {
            return arg_in(
                part_at(t, at, arg),
                class,
                values,
                part_weight(t, at, arg),
                rest,
                start,
                replies,
            );
        }
        arg = sum(arg, 1);
        rest -= all;
        start = sum(start, all);
        replies = sum(replies, answers(class, values));
    }
    Spot::Here { out: Out::Stuck }
}

// The name's own move: an answer to its question ends it.
#[tactic(auto, unfolding(crate::specs::Name::hear_answer))]
fn hear_answer(t: &[u16; TERM_WORDS], at: usize, q: usize, x: usize, m: Move) -> Out
    requires { Long t.now }
    ensures { result ≡ hear_answer t.now at q x m }
{
    let kind = m.kind;
    let value = m.value;
    let i = answer_number(cell(t, at, CLASS), cell(t, at, VALUES), q, x, kind, value);
    if i == 0 {
        return Out::Stuck;
    }
    Out::Exit {
        kind,
        value,
        block: 0,
        set: 0,
    }
}

// A move at argument j, where the first n may be asked: a question enters its copy of the argument.
#[tactic(auto, unfolding(crate::specs::Name::hear_question))]
fn hear_question(t: &[u16; TERM_WORDS], at: usize, n: usize, j: usize, m: Move) -> Out
    requires { Long t.now }
    ensures { result ≡ hear_question t.now at n j m }
{
    if n <= j {
        return Out::Stuck;
    }
    let i = question_number(part_class(t, at, j), part_values(t, at, j), m.kind, m.value);
    if i == 0 {
        return Out::Stuck;
    }
    let base = sum(inner(t, at), spots(t, at, j));
    let next = mul_add(i - 1, part_weight(t, at, j), base);
    Out::Go {
        next,
        block: 0,
        set: 0,
    }
}

// What follows a move at a name that waits, whose first n arguments may be asked.
#[tactic(auto, unfolding(crate::specs::Name::listen_of))]
fn listen(t: &[u16; TERM_WORDS], at: usize, q: usize, x: usize, n: usize, m: Move) -> Out
    requires { Long t.now }
    ensures { result ≡ listen_of t.now at q x n m }
{
    if m.id != name_id(t, at) {
        return Out::Stuck;
    }
    let arg = m.arg;
    if arg == 0 {
        return hear_answer(t, at, q, x, m);
    }
    hear_question(t, at, n, arg - 1, m)
}

// A name that waits: for a move, or what follows the move that is given.
#[tactic(auto, unfolding(crate::specs::Name::at_wait))]
pub fn waiting(t: &[u16; TERM_WORDS], at: usize, q: usize, x: usize, n: usize, m: Move) -> Out
    requires { Long t.now }
    ensures { result ≡ at_wait t.now at q x n m }
{
    if m.kind == NO_MOVE {
        return Out::Hear {
            at,
            kind: q,
            value: x,
            count: n,
        };
    }
    listen(t, at, q, x, n, m)
}

// The second wait of a name with n arguments: without any it never comes there.
#[tactic(auto, unfolding(crate::specs::Name::spent_of))]
fn spent(at: usize, q: usize, x: usize, n: usize) -> Out
    ensures { result ≡ spent_of at q x n }
{
    if n == 0 {
        return Out::Stuck;
    }
    Out::Hear {
        at,
        kind: q,
        value: x,
        count: 0,
    }
}

// Position k of a name.
#[tactic(auto, unfolding(crate::specs::Name::in_name, crate::specs::Name::at_wait, crate::specs::Name::at_spent, crate::specs::Name::spent_of))]
pub fn in_name(t: &[u16; TERM_WORDS], at: usize, q: usize, x: usize, k: usize) -> Spot
    requires { Long t.now }
    ensures { result ≡ in_name t.now at q x k no_move }
{
    let id = name_id(t, at);
    if k == CALL {
        return Spot::Here {
            out: said(q, id, 0, x, WAIT),
        };
    }
    let n = name_count(t, at);
    if k == WAIT {
        return Spot::Here {
            out: Out::Hear {
                at,
                kind: q,
                value: x,
                count: n,
            },
        };
    }
    let first = inner(t, at);
    if k < first {
        return Spot::Here {
            out: spent(at, q, x, n),
        };
    }
    let all = spots(t, at, n);
    if k - first < all {
        return in_args(t, at, 0, n, k - first, first, sum(first, all));
    }
    Spot::Here {
        out: reply(t, id, at, 0, n, k - first - all, after(t, at)),
    }
}
