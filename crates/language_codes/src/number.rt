// Numbers from -Z to Z, the values that are none, their codes and their bytes. No function here can overflow.
ghost use Rattle.std.specs.Prelude.{◌≡◌, ◌<◌, ◌≤◌, pos, nat_abs, ◌-ℤ◌};
ghost use Rattle.language.specs.Number.{finites, numbers, class_of, special, modulo, code, signed};
ghost use Rattle.language.specs.Number.{from_byte, in_range};
ghost use Rattle.language.specs.Order.{first_number};

use language::Numbers;

// How many bytes there are.
const BYTES: u16 = 256;

// The overflow rules, by their numbers in a sheet: a result outside -Z to Z has no play; a multiple of 2Z + 1 is added
// or taken away; it becomes an infinity.
pub const NO_PLAY: u8 = 0;

const TURNING: u8 = 1;

pub const INFINITIES: u8 = 2;

// How many more values rule 2 has: minus infinity, infinity, not-a-number.
const EXTRAS: u16 = 3;

// The classes of values.
const FINITE: usize = 0;

pub const MINUS_INFINITY: usize = 1;

pub const INFINITY: usize = 2;

pub const NOT_A_NUMBER: usize = 3;

// The numbers that stand for the values that are none.
const LOWEST: i64 = -127;

const HIGHEST: i64 = 126;

const NONE: i64 = 127;

// How many numbers there are from -Z to Z.
#[tactic(auto, unfolding(language::specs::Number::finites))]
pub fn finites(n: Numbers) -> u16
    ensures { result ≡ finites n }
{
    2 * (n.z as u16) + 1
}

// How many values there are.
#[tactic(auto, unfolding(language::specs::Number::numbers, language::specs::Number::extras, language::specs::Number::finites))]
pub fn numbers(n: Numbers) -> u16
    ensures { result ≡ numbers n }
{
    if n.rule == INFINITIES {
        return finites(n) + EXTRAS;
    }
    finites(n)
}

// The place of -Z among the values in the order of their signed bytes: minus infinity comes before it, where there is
// one.
#[tactic(auto, unfolding(language::specs::Order::first_number))]
pub fn first_number(n: Numbers) -> usize
    ensures { (result ≡ first_number n) × (result ≤ 1) }
{
    if n.rule == INFINITIES {
        return 1;
    }
    0
}

// The class of the value with a code.
#[tactic(auto, unfolding(language::specs::Number::class_of, language::specs::Number::finites))]
pub fn class_of(n: Numbers, c: u16) -> usize
    ensures { result ≡ class_of n c }
{
    let f = finites(n);
    if c < f {
        return FINITE;
    }
    if c == f {
        return MINUS_INFINITY;
    }
    if c == f + 1 {
        return INFINITY;
    }
    NOT_A_NUMBER
}

// The code of the value of a class that is not finite.
#[tactic(auto, unfolding(language::specs::Number::special))]
pub fn special(n: Numbers, k: u8) -> u16
    ensures { result ≡ special n k }
{
    2 * (n.z as u16) + (k as u16)
}

// The number that `a` minus `b` is.
fn minus(a: u16, b: u16) -> i64
    ensures { result ≡ pos a -ℤ pos b }
{
    (a as i64) - (b as i64)
}

// The distance from 0.
pub fn absolute(v: i64) -> u64
    ensures { result ≡ nat_abs v }
{
    v.unsigned_abs()
}

// The remainder of a division rounded down.
#[tactic(auto, using(crate::proofs::NumberSteps::rem_euclid_is))]
fn modulo(v: i64, n: u16) -> u16
    requires { 0 < n }
    ensures { result ≡ modulo v n }
{
    v.rem_euclid(i64::from(n)) as u16
}

// The code of a number.
#[tactic(auto, unfolding(language::specs::Number::code, language::specs::Number::finites))]
pub fn code(n: Numbers, v: i64) -> u16
    ensures { result ≡ code n v }
{
    modulo(v, finites(n))
}

// The number that has a code.
#[tactic(auto, unfolding(language::specs::Number::signed, language::specs::Number::finites))]
pub fn signed(n: Numbers, c: u16) -> i64
    ensures { result ≡ signed n c }
{
    if c <= n.z as u16 {
        return c as i64;
    }
    let f = finites(n);
    if c < f {
        return minus(c, f);
    }
    if c == f {
        return LOWEST;
    }
    if c == f + 1 {
        return HIGHEST;
    }
    NONE
}

// The number that a byte stands for, in two's complement.
#[tactic(auto, unfolding(language::specs::Number::from_byte))]
fn from_byte(b: u8) -> i64
    ensures { result ≡ from_byte b }
{
    i64::from(b.cast_signed())
}

// Whether a byte stands for a number from -Z to Z.
#[tactic(auto, unfolding(language::specs::Number::in_range))]
pub fn in_range(n: Numbers, b: u8) -> bool
    ensures { result ≡ in_range n b }
{
    if b <= n.z {
        return true;
    }
    BYTES - (n.z as u16) <= b as u16
}

// The code of the number that a byte stands for.
pub fn code_of_byte(n: Numbers, b: u8) -> u16
    ensures { result ≡ code n (from_byte b) }
{
    code(n, from_byte(b))
}
