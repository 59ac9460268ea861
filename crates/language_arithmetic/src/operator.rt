// The nine operators on codes, under every overflow rule. Those on numbers are settled by the class of each operand,
// four by four; only finite pairs, and finite times infinity, need arithmetic.
ghost use Rattle.std.specs.Prelude.{◌≡◌, None, Some, true, false, ◌<◌, eqb, ◌+ℤ◌, ◌-ℤ◌, ◌*ℤ◌};
ghost use Rattle.std.specs.Int.Signed.{lt_z};
ghost use Rattle.language.specs.Choice.{pick};
ghost use Rattle.language.specs.Number.{special, code, signed};
ghost use Rattle.language.specs.Tables.{entry};
ghost use Rattle.language.specs.Operator.{infinity_by, beyond, fit, fit_some, remainder, truth, scaled, by_classes};
ghost use Rattle.language.specs.Operator.{settled, compared};
ghost use Rattle.language.specs.Operator.{less_of, equal_of, operate};

use language::Numbers;
use language::operator::{AND, EQUAL, LESS, MINUS, OR, PLUS, REMAINDER, TIMES};
use language_codes::exact::{add, mul, rem_euclid, sub};
use language_codes::number;

// What an operator gives by the classes of its operands: a row is that of the left one, a column that of the right one,
// finite, minus infinity, infinity, not-a-number. ARITHMETIC, or, of the first four, the class of the result; of the
// last two, whether it is true.
const ARITHMETIC: u8 = 0;

const YES: u8 = 2;

const SUMS: [[u8; 4]; 4] = [[0, 1, 2, 3], [1, 1, 3, 3], [2, 3, 2, 3], [3, 3, 3, 3]];

const DIFFERENCES: [[u8; 4]; 4] = [[0, 2, 1, 3], [1, 3, 1, 3], [2, 2, 3, 3], [3, 3, 3, 3]];

const PRODUCTS: [[u8; 4]; 4] = [[0, 0, 0, 3], [0, 2, 1, 3], [0, 1, 2, 3], [3, 3, 3, 3]];

const REMAINDERS: [[u8; 4]; 4] = [[0, 3, 3, 3], [3, 3, 3, 3], [3, 3, 3, 3], [3, 3, 3, 3]];

const BELOW: [[u8; 4]; 4] = [[0, 1, 2, 1], [2, 1, 2, 1], [1, 1, 1, 1], [1, 1, 1, 1]];

const ALIKE: [[u8; 4]; 4] = [[0, 1, 1, 1], [1, 2, 1, 1], [1, 1, 2, 1], [1, 1, 1, 1]];

// The code of a truth that holds.
const TRUE: u16 = 1;

// The infinity of the sign of a result, and for 0 not-a-number.
#[tactic(auto, unfolding(language::specs::Operator::infinity_by))]
fn infinity_by(n: Numbers, v: i64) -> Option<u16>
    ensures { result ≡ Some (infinity_by n v) }
{
    if number::absolute(v) == 0 {
        return Some(number::special(n, number::NOT_A_NUMBER as u8));
    }
    if v < 0 {
        return Some(number::special(n, number::MINUS_INFINITY as u8));
    }
    Some(number::special(n, number::INFINITY as u8))
}

// A result outside -Z to Z.
#[tactic(auto, unfolding(language::specs::Operator::beyond))]
fn beyond(n: Numbers, v: i64) -> Option<u16>
    ensures { result ≡ beyond n v }
{
    if n.rule == number::NO_PLAY {
        return None;
    }
    if n.rule == number::INFINITIES {
        return infinity_by(n, v);
    }
    Some(number::code(n, v))
}

// A result as the overflow rule takes it.
#[tactic(auto, unfolding(language::specs::Operator::fit))]
fn fit(n: Numbers, v: i64) -> Option<u16>
    ensures { result ≡ fit n v }
{
    if (n.z as u64) < number::absolute(v) {
        return beyond(n, v);
    }
    Some(number::code(n, v))
}

// The sum of two numbers.
#[tactic(auto, using(crate::proofs::OperatorSteps::signed_small))]
fn sum(n: Numbers, x: u16, y: u16) -> Option<u16>
    ensures { result ≡ fit n (signed n x +ℤ signed n y) }
{
    fit(n, add(number::signed(n, x), number::signed(n, y)))
}

// Their difference.
#[tactic(auto, using(crate::proofs::OperatorSteps::signed_small))]
fn difference(n: Numbers, x: u16, y: u16) -> Option<u16>
    ensures { result ≡ fit n (signed n x -ℤ signed n y) }
{
    fit(n, sub(number::signed(n, x), number::signed(n, y)))
}

// A product v of two values: of two numbers as the rule takes it, and with an infinity by its sign.
#[tactic(auto, unfolding(language::specs::Operator::scaled))]
fn scale(n: Numbers, x: u16, y: u16, v: i64) -> Option<u16>
    ensures { result ≡ scaled n x y v }
{
    let f = number::finites(n);
    if x < f {
        if y < f {
            return fit(n, v);
        }
        return infinity_by(n, v);
    }
    infinity_by(n, v)
}

// Their product.
#[tactic(auto, using(crate::proofs::OperatorSteps::signed_small))]
fn product(n: Numbers, x: u16, y: u16) -> Option<u16>
    ensures { result ≡ scaled n x y (signed n x *ℤ signed n y) }
{
    scale(n, x, y, mul(number::signed(n, x), number::signed(n, y)))
}

// Where a right operand of 0 leaves no remainder: no play, and under rule 2 not-a-number.
#[tactic(auto, unfolding(language::specs::Operator::fit_some))]
fn undivided(n: Numbers) -> Option<u16>
    ensures { result ≡ fit_some n None }
{
    if n.rule != number::INFINITIES {
        return None;
    }
    Some(number::special(n, number::NOT_A_NUMBER as u8))
}

// Their remainder: from 0 up to, but not including, the absolute value of the right operand.
#[tactic(auto, using(crate::proofs::OperatorSteps::signed_small), unfolding(language::specs::Operator::fit_some, language::specs::Operator::remainder),)]
fn remainder(n: Numbers, x: u16, y: u16) -> Option<u16>
    ensures { result ≡ fit_some n (remainder (signed n x) (signed n y)) }
{
    let d = number::signed(n, y);
    if number::absolute(d) == 0 {
        return undivided(n);
    }
    fit(n, rem_euclid(number::signed(n, x), d))
}

// The code of a truth.
#[tactic(auto, unfolding(language::specs::Operator::truth))]
fn truth(b: bool) -> Option<u16>
    ensures { result ≡ Some (truth b) }
{
    Some(u16::from(b))
}

// Whether x is less than y.
fn below(x: i64, y: i64) -> bool
    ensures { result ≡ lt_z x y }
{
    x < y
}

// What a table says of two classes.
fn entry(t: [[u8; 4]; 4], a: usize, b: usize) -> u8
    requires { (a < 4) × (b < 4) }
    ensures { result ≡ entry t a b }
{
    t[a][b]
}

// What a table says of two values, by their classes.
fn by_classes(t: [[u8; 4]; 4], n: Numbers, x: u16, y: u16) -> u8
    ensures { result ≡ by_classes t n x y }
{
    entry(t, number::class_of(n, x), number::class_of(n, y))
}

// What a table gives: a class that is not finite, or the exact result.
#[tactic(auto, unfolding(language::specs::Operator::settled))]
fn settled(t: [[u8; 4]; 4], n: Numbers, x: u16, y: u16, exact: Option<u16>) -> Option<u16>
    ensures { result ≡ settled n (by_classes t n x y) exact }
{
    let k = by_classes(t, n, x, y);
    if k == ARITHMETIC {
        return exact;
    }
    Some(number::special(n, k))
}

// The truth that a table gives, where arithmetic does not decide.
#[tactic(auto, unfolding(language::specs::Operator::compared))]
fn compared(k: u8, res: bool) -> Option<u16>
    ensures { result ≡ Some (truth (compared k res)) }
{
    if k == ARITHMETIC {
        return truth(res);
    }
    truth(k == YES)
}

// Less, on numbers.
#[tactic(auto, unfolding(language::specs::Operator::less_of))]
fn less(n: Numbers, x: u16, y: u16) -> Option<u16>
    ensures { result ≡ Some (truth (less_of n x y)) }
{
    let k = by_classes(BELOW, n, x, y);
    compared(k, below(number::signed(n, x), number::signed(n, y)))
}

// Equal, on numbers: they are equal exactly if their codes are.
#[tactic(auto, unfolding(language::specs::Operator::equal_of))]
fn equal(n: Numbers, x: u16, y: u16) -> Option<u16>
    ensures { result ≡ Some (truth (equal_of n x y)) }
{
    let k = by_classes(ALIKE, n, x, y);
    compared(k, x == y)
}

// And.
fn both(x: u16, y: u16) -> Option<u16>
    ensures { result ≡ Some (truth (pick (eqb x 1) (eqb y 1) false)) }
{
    if x == TRUE {
        return truth(y == TRUE);
    }
    truth(false)
}

// Or.
fn either(x: u16, y: u16) -> Option<u16>
    ensures { result ≡ Some (truth (pick (eqb x 1) true (eqb y 1))) }
{
    if x == TRUE {
        return truth(true);
    }
    truth(y == TRUE)
}

// Equal, on truths: they are equal exactly if their codes are.
fn same_truth(x: u16, y: u16) -> Option<u16>
    ensures { result ≡ Some (truth (eqb x y)) }
{
    truth(x == y)
}

// The code of an operator's result, or no play. EQUAL_TRUTHS is what the other arms leave.
#[tactic(auto, unfolding(language::specs::Operator::operate, language::specs::Operator::plus_of, language::specs::Operator::minus_of, language::specs::Operator::times_of, language::specs::Operator::remainder_of))]
pub fn operate(n: Numbers, op: u8, x: u16, y: u16) -> Option<u16>
    ensures { result ≡ operate n op x y }
{
    match op {
        PLUS => settled(SUMS, n, x, y, sum(n, x, y)),
        MINUS => settled(DIFFERENCES, n, x, y, difference(n, x, y)),
        TIMES => settled(PRODUCTS, n, x, y, product(n, x, y)),
        REMAINDER => settled(REMAINDERS, n, x, y, remainder(n, x, y)),
        EQUAL => equal(n, x, y),
        LESS => less(n, x, y),
        AND => both(x, y),
        OR => either(x, y),
        _ => same_truth(x, y),
    }
}
