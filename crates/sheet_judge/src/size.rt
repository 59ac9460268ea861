// The size of a term.
ghost use Rattle.std.specs.Prelude.{◌≡◌, min};
ghost use Rattle.sheet_judge.specs.Size.{size_of};

use language::Numbers;
use sheet_parts::weight::{answers_of, questions_of, sat_add, sat_mul};

// The size of a term of type ty, held at 4,097.
#[tactic(auto, unfolding(crate::specs::Size::size_of))]
pub fn size_of(n: Numbers, ty: u8, weight: u32) -> u32
    ensures { result ≡ min (size_of n ty weight) 4097 }
{
    sat_add(
        sat_add(2, sat_mul(questions_of(n, ty), weight)),
        answers_of(n, ty),
    )
}
