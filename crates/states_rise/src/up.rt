// From a step of a part to one of the term: what the part's exits and states become.
ghost use Rattle.std.specs.Prelude.{◌≡◌};
ghost use Rattle.states_rise.specs.Up.{exit_done, exit_truth, exit_value, exit_operate, exit_assign, exit_argument, exit_new};
ghost use Rattle.states_rise.specs.Up.{exits_of, goes_of};
ghost use Rattle.states_positions.specs.declared.Out.TheVariants.{Go};

use language::Numbers;
use language_arithmetic::operator::operate;
use sheet_records::limits::BYTES;
use sheet_records::read::SHORTS;
use states_positions::moves::{DONE, OK, VALUE};
use states_positions::roles::{ARGUMENT, ASSIGNED, BLOCK, RIGHT, SELECT, TEST, THEN};
use states_positions::row::{mul_add, sum};
use states_positions::types::{answer_number, question_kind, question_value};
use states_positions::{Frame, Out, Silent};

// The truths.
const FALSE: usize = 0;

const TRUE: usize = 1;

// Done leads on.
#[tactic(auto, unfolding(crate::specs::Up::exit_done))]
fn exit_done(kind: usize, next: usize, block: usize, set: usize) -> Out
    ensures { result ≡ exit_done kind next block set }
{
    if kind == DONE {
        return Out::Go { next, block, set };
    }
    Out::Stuck
}

// A truth leads to a, and a falsehood to b, or out where b is 0.
#[tactic(auto, unfolding(crate::specs::Up::exit_truth))]
fn exit_truth(kind: usize, value: usize, a: usize, b: usize, block: usize, set: usize) -> Out
    ensures { result ≡ exit_truth kind value a b block set }
{
    if kind == VALUE {
        if value == TRUE {
            return Out::Go {
                next: a,
                block,
                set,
            };
        }
        if value == FALSE {
            if b == 0 {
                return Out::Exit {
                    kind: DONE,
                    value: 0,
                    block,
                    set,
                };
            }
            return Out::Go {
                next: b,
                block,
                set,
            };
        }
    }
    Out::Stuck
}

// A value leads to its copy of the other part.
#[tactic(auto, unfolding(crate::specs::Up::exit_value))]
fn exit_value(kind: usize, value: usize, f: Frame, block: usize, set: usize) -> Out
    ensures { result ≡ exit_value kind value f block set }
{
    if kind == VALUE {
        if value < f.c {
            return Out::Go {
                next: mul_add(value, f.b, f.a),
                block,
                set,
            };
        }
    }
    Out::Stuck
}

// The result of an operator, where it has one.
#[tactic(auto, unfolding(crate::specs::Up::exit_operate, crate::specs::Up::exit_result))]
fn exit_operate(n: Numbers, kind: usize, value: usize, f: Frame, block: usize, set: usize) -> Out
    ensures { result ≡ exit_operate n kind value f block set }
{
    if kind == VALUE {
        if value < f.c {
            let op = (f.b % BYTES) as u8;
            let x = (f.a % SHORTS) as u16;
            let y = (value % SHORTS) as u16;
            return match operate(n, op, x, y) {
                Some(code) => Out::Exit {
                    kind: VALUE,
                    value: code as usize,
                    block,
                    set,
                },
                None => Out::Stuck,
            };
        }
    }
    Out::Stuck
}

// The answer ok of a variable ends its assignment.
#[tactic(auto, unfolding(crate::specs::Up::exit_assign))]
fn exit_assign(kind: usize, block: usize, set: usize) -> Out
    ensures { result ≡ exit_assign kind block set }
{
    if kind == OK {
        return Out::Exit {
            kind: DONE,
            value: 0,
            block,
            set,
        };
    }
    Out::Stuck
}

// An answer to the question of this copy of an argument leads to the reply.
#[tactic(auto, unfolding(crate::specs::Up::exit_argument))]
fn exit_argument(kind: usize, value: usize, f: Frame, block: usize, set: usize) -> Out
    ensures { result ≡ exit_argument kind value f block set }
{
    let q = question_kind(f.b, f.d);
    let x = question_value(f.b, f.d);
    let r = answer_number(f.b, f.c, q, x, kind, value);
    if 0 < r {
        return Out::Go {
            next: sum(f.a, r - 1),
            block,
            set,
        };
    }
    Out::Stuck
}

// A block's own variable ends with it.
#[tactic(auto, unfolding(crate::specs::Up::exit_new))]
fn exit_new(kind: usize, value: usize, f: Frame, block: usize, set: usize) -> Out
    ensures { result ≡ exit_new kind value f block set }
{
    if block == f.a {
        return Out::Exit {
            kind,
            value,
            block: 0,
            set: 0,
        };
    }
    Out::Exit {
        kind,
        value,
        block,
        set,
    }
}

// A part's exit.
#[tactic(auto, unfolding(crate::specs::Up::exits_of))]
pub fn exits(n: Numbers, f: Frame, kind: usize, value: usize, block: usize, set: usize) -> Out
    ensures { result ≡ exits_of n f kind value block set }
{
    let role = f.role;
    match role {
        THEN => exit_done(kind, f.a, block, set),
        TEST => exit_truth(kind, value, f.a, f.b, block, set),
        SELECT => exit_value(kind, value, f, block, set),
        RIGHT => exit_operate(n, kind, value, f, block, set),
        ASSIGNED => exit_assign(kind, block, set),
        ARGUMENT => exit_argument(kind, value, f, block, set),
        BLOCK => exit_new(kind, value, f, block, set),
        _ => Out::Exit {
            kind,
            value,
            block,
            set,
        },
    }
}

// A part's silent step: a block whose variable is written moves to the copy of that value.
#[tactic(auto, unfolding(crate::specs::Up::goes_of))]
pub fn goes(f: Frame, g: Silent) -> Silent
    ensures { Go result.next result.block result.set ≡ goes_of f g.next g.block g.set }
{
    if f.role == BLOCK {
        if g.block == f.a {
            return Silent {
                next: mul_add(g.set, f.b, g.next),
                block: 0,
                set: 0,
            };
        }
        return Silent {
            next: sum(f.base, g.next),
            block: g.block,
            set: g.set,
        };
    }
    Silent {
        next: sum(f.base, g.next),
        block: g.block,
        set: g.set,
    }
}
