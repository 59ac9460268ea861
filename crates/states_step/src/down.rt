// From a position of a term to one of its parts: sums count the first part first, and a part that is copied for
// each value has its positions at the value times its weight.
ghost use Rattle.std.specs.Prelude.{◌≡◌};
ghost use Rattle.states_step.specs.walk.Down.{leaves_of, in_fetch, in_seq, in_while, cond_in, in_cond, operate_in};
ghost use Rattle.states_step.specs.walk.Down.{in_operate, assign_in, in_assign, in_new, down_bare};
ghost use Rattle.states_positions.specs.Row.{Long};

use sheet_records::read::SHORTS;
use sheet_rows::kind::{ASSIGN, CONSTANT, FETCH, IF, NAME, NEW, OPERATE, SEQUENCE, SKIP, WHILE};
use sheet_rows::row::{DETAIL, KIND};
use states_names::name::{framed, in_name};
use states_positions::moves::{ASK, DONE, READ, RUN, VALUE, WRITE};
use states_positions::roles::{AS_IS, ASSIGNED, BLOCK, RIGHT, SELECT, TEST, THEN};
use states_positions::row::{cell, mul_add, part_at, part_values, part_weight, sum};
use states_positions::{Out, Spot};
use term_expand::expand::TERM_WORDS;

// The exit with an answer.
fn leaves(kind: usize, value: usize) -> Spot
    ensures { result ≡ leaves_of kind value }
{
    let out = Out::Exit {
        kind,
        value,
        block: 0,
        set: 0,
    };
    Spot::Here { out }
}

// Position k of a fetch: its variable is read.
#[tactic(auto, unfolding(crate::specs::walk::Down::in_fetch))]
fn in_fetch(t: &[u16; TERM_WORDS], at: usize, k: usize) -> Spot
    requires { Long t.now }
    ensures { result ≡ in_fetch t.now at k }
{
    let part = part_at(t, at, 0);
    let f = framed(AS_IS, 0, 0, 0, 0, 0);
    Spot::Inside {
        part,
        kind: READ,
        value: 0,
        k,
        f,
    }
}

// Position k of a sequence.
#[tactic(auto, unfolding(crate::specs::walk::Down::in_seq))]
fn in_seq(t: &[u16; TERM_WORDS], at: usize, q: usize, x: usize, k: usize) -> Spot
    requires { Long t.now }
    ensures { result ≡ in_seq t.now at q x k }
{
    let w = part_weight(t, at, 0);
    if k < w {
        let part = part_at(t, at, 0);
        let f = framed(THEN, 0, w, 0, 0, 0);
        return Spot::Inside {
            part,
            kind: RUN,
            value: 0,
            k,
            f,
        };
    }
    let part = part_at(t, at, 1);
    let f = framed(AS_IS, w, 0, 0, 0, 0);
    Spot::Inside {
        part,
        kind: q,
        value: x,
        k: k - w,
        f,
    }
}

// Position k of a loop.
#[tactic(auto, unfolding(crate::specs::walk::Down::in_while))]
fn in_while(t: &[u16; TERM_WORDS], at: usize, k: usize) -> Spot
    requires { Long t.now }
    ensures { result ≡ in_while t.now at k }
{
    let w = part_weight(t, at, 0);
    if k < w {
        let part = part_at(t, at, 0);
        let f = framed(TEST, 0, w, 0, 0, 0);
        return Spot::Inside {
            part,
            kind: ASK,
            value: 0,
            k,
            f,
        };
    }
    let part = part_at(t, at, 1);
    let f = framed(THEN, w, 0, 0, 0, 0);
    Spot::Inside {
        part,
        kind: RUN,
        value: 0,
        k: k - w,
        f,
    }
}

// Position k of a choice: the test b weighs w, and the first branch m weighs v.
#[tactic(auto, unfolding(crate::specs::walk::Down::cond_in))]
fn cond_in(b: usize, m: usize, n: usize, w: usize, v: usize, q: usize, x: usize, k: usize) -> Spot
    ensures { result ≡ cond_in b m n w v q x k }
{
    if k < w {
        let f = framed(TEST, 0, w, sum(w, v), 0, 0);
        return Spot::Inside {
            part: b,
            kind: ASK,
            value: 0,
            k,
            f,
        };
    }
    if k - w < v {
        let f = framed(AS_IS, w, 0, 0, 0, 0);
        return Spot::Inside {
            part: m,
            kind: q,
            value: x,
            k: k - w,
            f,
        };
    }
    let f = framed(AS_IS, sum(w, v), 0, 0, 0, 0);
    Spot::Inside {
        part: n,
        kind: q,
        value: x,
        k: k - w - v,
        f,
    }
}

// Position k of the choice at a place.
#[tactic(auto, unfolding(crate::specs::walk::Down::in_cond))]
fn in_cond(t: &[u16; TERM_WORDS], at: usize, q: usize, x: usize, k: usize) -> Spot
    requires { Long t.now }
    ensures { result ≡ in_cond t.now at q x k }
{
    let w = part_weight(t, at, 0);
    let v = part_weight(t, at, 1);
    cond_in(
        part_at(t, at, 0),
        part_at(t, at, 1),
        part_at(t, at, 2),
        w,
        v,
        q,
        x,
        k,
    )
}

// Position k of an operation: the left operand weighs w, and the right one v for each of the m values of the left.
#[tactic(auto, unfolding(crate::specs::walk::Down::operate_in))]
fn operate_in(left: usize, right: usize, w: usize, v: usize, op: usize, m: usize, k: usize) -> Spot
    ensures { result ≡ operate_in left right w v op m k }
{
    if k < w {
        let f = framed(SELECT, 0, w, v, m, 0);
        return Spot::Inside {
            part: left,
            kind: ASK,
            value: 0,
            k,
            f,
        };
    }
    if v == 0 {
        return Spot::Here { out: Out::Stuck };
    }
    let x = (k - w) / v;
    let f = framed(RIGHT, mul_add(x, v, w), x, op, m, 0);
    Spot::Inside {
        part: right,
        kind: ASK,
        value: 0,
        k: (k - w) % v,
        f,
    }
}

// Position k of the operation at a place.
#[tactic(auto, unfolding(crate::specs::walk::Down::in_operate))]
fn in_operate(t: &[u16; TERM_WORDS], at: usize, k: usize) -> Spot
    requires { Long t.now }
    ensures { result ≡ in_operate t.now at k }
{
    let w = part_weight(t, at, 0);
    let v = part_weight(t, at, 1);
    let m = part_values(t, at, 0);
    operate_in(
        part_at(t, at, 0),
        part_at(t, at, 1),
        w,
        v,
        cell(t, at, DETAIL),
        m,
        k,
    )
}

// Position k of an assignment: the expression e weighs w, and the variable v for each of its m values.
#[tactic(auto, unfolding(crate::specs::walk::Down::assign_in))]
fn assign_in(var: usize, e: usize, w: usize, v: usize, m: usize, k: usize) -> Spot
    ensures { result ≡ assign_in var e w v m k }
{
    if k < w {
        let f = framed(SELECT, 0, w, v, m, 0);
        return Spot::Inside {
            part: e,
            kind: ASK,
            value: 0,
            k,
            f,
        };
    }
    if v == 0 {
        return Spot::Here { out: Out::Stuck };
    }
    let x = (k - w) / v;
    let f = framed(ASSIGNED, mul_add(x, v, w), 0, 0, 0, 0);
    Spot::Inside {
        part: var,
        kind: WRITE,
        value: x,
        k: (k - w) % v,
        f,
    }
}

// Position k of the assignment at a place.
#[tactic(auto, unfolding(crate::specs::walk::Down::in_assign))]
fn in_assign(t: &[u16; TERM_WORDS], at: usize, k: usize) -> Spot
    requires { Long t.now }
    ensures { result ≡ in_assign t.now at k }
{
    let w = part_weight(t, at, 1);
    let v = part_weight(t, at, 0);
    let m = part_values(t, at, 0);
    assign_in(part_at(t, at, 0), part_at(t, at, 1), w, v, m, k)
}

// Position k of a block.
#[tactic(auto, unfolding(crate::specs::walk::Down::in_new))]
fn in_new(t: &[u16; TERM_WORDS], at: usize, q: usize, x: usize, k: usize) -> Spot
    requires { Long t.now }
    ensures { result ≡ in_new t.now at q x k }
{
    let w = part_weight(t, at, 0);
    if w == 0 {
        return Spot::Here { out: Out::Stuck };
    }
    let v = k / w;
    let part = part_at(t, at, 0);
    let f = framed(BLOCK, mul_add(v, w, 0), sum(at % SHORTS, 1), w, v, 0);
    Spot::Inside {
        part,
        kind: q,
        value: x,
        k: k % w,
        f,
    }
}

// Position k of the term at a place, asked the question q of value x. A private variable, whose value is not known here,
// is stuck.
#[tactic(auto, unfolding(crate::specs::walk::Down::down_as))]
pub fn down(t: &[u16; TERM_WORDS], at: usize, q: usize, x: usize, k: usize) -> Spot
    requires { Long t.now }
    ensures { result ≡ down_bare t.now at q x k }
{
    let kind = cell(t, at, KIND);
    match kind {
        SKIP => leaves(DONE, 0),
        CONSTANT => leaves(VALUE, cell(t, at, DETAIL)),
        NAME => in_name(t, at, q, x, k),
        FETCH => in_fetch(t, at, k),
        OPERATE => in_operate(t, at, k),
        ASSIGN => in_assign(t, at, k),
        SEQUENCE => in_seq(t, at, q, x, k),
        IF => in_cond(t, at, q, x, k),
        WHILE => in_while(t, at, k),
        NEW => in_new(t, at, q, x, k),
        _ => Spot::Here { out: Out::Stuck },
    }
}
