// The questions and answers of a type, by number: a type is its class and the number of values of its data.
ghost use Rattle.std.specs.Prelude.{◌≡◌};
ghost use Rattle.states_positions.specs.Types.{questions_of, answers_of, question_kind, question_value, question_number};
ghost use Rattle.states_positions.specs.Types.{question_limit, value_answer, answer_number};

use crate::moves::{ASK, DONE, OK, READ, RUN, VALUE, WRITE};
use crate::row::sum;

// The classes of types.
pub const COMMANDS: usize = sheet_rows::class::COMMANDS as usize;

pub const EXPRESSIONS: usize = sheet_rows::class::EXPRESSIONS as usize;

const VARIABLES: usize = sheet_rows::class::VARIABLES as usize;

// How many questions a type has.
#[tactic(auto, unfolding(crate::specs::Types::questions_of))]
pub fn questions(class: usize, values: usize) -> usize
    ensures { result ≡ questions_of class values }
{
    if class == VARIABLES {
        return sum(1, values);
    }
    1
}

// How many answers its questions have in all.
#[tactic(auto, unfolding(crate::specs::Types::answers_of))]
pub fn answers(class: usize, values: usize) -> usize
    ensures { result ≡ answers_of class values }
{
    if class == COMMANDS {
        return 1;
    }
    if class == EXPRESSIONS {
        return values;
    }
    sum(values, values)
}

// The kind of question i.
#[tactic(auto, unfolding(crate::specs::Types::question_kind))]
pub fn question_kind(class: usize, i: usize) -> usize
    ensures { result ≡ question_kind class i }
{
    if class == COMMANDS {
        return RUN;
    }
    if class == EXPRESSIONS {
        return ASK;
    }
    if i == 0 {
        return READ;
    }
    WRITE
}

// The value of question i.
#[tactic(auto, unfolding(crate::specs::Types::question_value))]
pub fn question_value(class: usize, i: usize) -> usize
    ensures { result ≡ question_value class i }
{
    if class == VARIABLES {
        if 0 < i {
            return i - 1;
        }
    }
    0
}

// How many values a question of a kind has at a type: none where it is no question of the type, and one where it
// carries no value.
#[tactic(auto, unfolding(crate::specs::Types::question_limit))]
pub fn question_limit(class: usize, values: usize, kind: usize) -> usize
    ensures { result ≡ question_limit class values kind }
{
    if class == COMMANDS {
        if kind == RUN {
            return 1;
        }
        return 0;
    }
    if class == EXPRESSIONS {
        if kind == ASK {
            return 1;
        }
        return 0;
    }
    if kind == READ {
        return 1;
    }
    if kind == WRITE {
        return values;
    }
    0
}

// 1 more than the number of a question; 0 where the type has no such question.
#[tactic(auto, unfolding(crate::specs::Types::question_number))]
pub fn question_number(class: usize, values: usize, kind: usize, value: usize) -> usize
    ensures { result ≡ question_number class values kind value }
{
    let limit = question_limit(class, values, kind);
    if kind == WRITE {
        if value < limit {
            return sum(value, 2);
        }
        return 0;
    }
    limit
}

// 1 more than a value that is answered; 0 where the answer is no such value.
#[tactic(auto, unfolding(crate::specs::Types::value_answer))]
fn value_answer(values: usize, kind: usize, value: usize) -> usize
    ensures { result ≡ value_answer values kind value }
{
    if kind == VALUE {
        if value < values {
            return sum(value, 1);
        }
    }
    0
}

// 1 more than the number of an answer to the question q of value x; 0 where the type has no such question or the
// question no such answer.
#[tactic(auto, unfolding(crate::specs::Types::answer_number))]
pub fn answer_number(
    class: usize,
    values: usize,
    q: usize,
    x: usize,
    kind: usize,
    value: usize,
) -> usize
    ensures { result ≡ answer_number class values q x kind value }
{
    if class == COMMANDS {
        if q == RUN {
            if kind == DONE {
                return 1;
            }
        }
        return 0;
    }
    if class == EXPRESSIONS {
        if q == ASK {
            return value_answer(values, kind, value);
        }
        return 0;
    }
    if q == READ {
        return value_answer(values, kind, value);
    }
    if q == WRITE {
        if x < values {
            if kind == OK {
                return sum(sum(values, x), 1);
            }
        }
    }
    0
}
