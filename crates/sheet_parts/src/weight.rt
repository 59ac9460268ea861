// Numbers of values, questions and answers, and sums and products held at 4,097, so that none wraps.
ghost use Rattle.std.specs.Prelude.{◌≡◌, ◌+◌, ◌*◌, ◌≤◌, ◌<◌, min};
ghost use Rattle.sheet_records.specs.Limits.{held_at};
ghost use Rattle.sheet_parts.specs.Rule.{values, questions, answers};

use crate::typing::{COMMAND, TRUTH_VARIABLE};
use language::Numbers;
use sheet_records::limits::HELD_AT;

// a + b, held at 4,097.
pub fn sat_add(a: u32, b: u32) -> u32
    ensures { result ≡ min (a + b) held_at }
{
    a.saturating_add(b).min(HELD_AT)
}

// a * b, held at 4,097.
pub fn sat_mul(a: u32, b: u32) -> u32
    ensures { result ≡ min (a * b) held_at }
{
    a.saturating_mul(b).min(HELD_AT)
}

// The number of values of a type's data.
#[tactic(auto, unfolding(crate::specs::Rule::values))]
pub fn values_of(n: Numbers, ty: u32) -> u16
    ensures { (result ≡ values n ty) × (result ≤ 514) }
{
    match ty {
        1 => 2,
        3 => 2,
        _ => language_codes::number::numbers(n),
    }
}

// How many questions a type has.
#[tactic(auto, unfolding(crate::specs::Rule::questions))]
pub fn questions_of(n: Numbers, ty: u8) -> u32
    ensures { result ≡ questions n ty }
{
    if ty < TRUTH_VARIABLE {
        return 1;
    }
    1 + values_of(n, ty as u32) as u32
}

// How many answers these have in all.
#[tactic(auto, unfolding(crate::specs::Rule::answers))]
pub fn answers_of(n: Numbers, ty: u8) -> u32
    ensures { result ≡ answers n ty }
{
    if ty == COMMAND {
        return 1;
    }
    if ty < TRUTH_VARIABLE {
        return values_of(n, ty as u32) as u32;
    }
    2 * (values_of(n, ty as u32) as u32)
}
