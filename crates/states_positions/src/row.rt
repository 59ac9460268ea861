// Reading the table of parts, and sums and products that may be too large.
ghost use Rattle.std.specs.Prelude.{◌≡◌, ◌+◌};
ghost use Rattle.sheet_rows.specs.Row.{word};
ghost use Rattle.states_positions.specs.Row.{part_weight, part_class, part_values, name_id, name_count, name_spent};
ghost use Rattle.states_positions.specs.Row.{Long, sum_of, mul_add_of};

use sheet_rows::pack::{COUNT_SPAN, ID_SPAN, ONCE};
use sheet_rows::row::{CLASS, DETAIL, PARTS, ROW_WORDS, VALUES, WEIGHT};
use term_expand::expand::TERM_WORDS;

// Numbers below this are added, and those below the next are multiplied: sum and product fit 32 bits.
const SUM_LIMIT: usize = 2147483648;

const FACTOR_LIMIT: usize = 65536;

// Word i of the row at a place, 0 past the end of the rows. They are an array and not a slice because a slice, which is
// two words, goes through memory at every call, and its length would be divided at every word.
pub fn cell(t: &[u16; TERM_WORDS], at: usize, i: usize) -> usize
    requires { Long t.now }
    ensures { result ≡ word t.now at i }
{
    if TERM_WORDS / ROW_WORDS < at {
        return 0;
    }
    let row = ROW_WORDS * at;
    if TERM_WORDS - row <= i {
        return 0;
    }
    let index = row + i;
    t[index] as usize
}

// The place of part j.
pub fn part_at(t: &[u16; TERM_WORDS], at: usize, j: usize) -> usize
    requires { Long t.now }
    ensures { result ≡ word t.now at (5 + j) }
{
    if TERM_WORDS - PARTS < j {
        return 0;
    }
    cell(t, at, PARTS + j)
}

// The weight of part j. Three names of three definitions over cell: part_word(t, at, j, WEIGHT) would be no plainer.
#[tactic(auto, unfolding(crate::specs::Row::part_weight))]
pub fn part_weight(t: &[u16; TERM_WORDS], at: usize, j: usize) -> usize
    requires { Long t.now }
    ensures { result ≡ part_weight t.now at j }
{
    cell(t, part_at(t, at, j), WEIGHT)
}

// The class of part j's type.
#[tactic(auto, unfolding(crate::specs::Row::part_class))]
pub fn part_class(t: &[u16; TERM_WORDS], at: usize, j: usize) -> usize
    requires { Long t.now }
    ensures { result ≡ part_class t.now at j }
{
    cell(t, part_at(t, at, j), CLASS)
}

// How many values part j's data has.
#[tactic(auto, unfolding(crate::specs::Row::part_values))]
pub fn part_values(t: &[u16; TERM_WORDS], at: usize, j: usize) -> usize
    requires { Long t.now }
    ensures { result ≡ part_values t.now at j }
{
    cell(t, part_at(t, at, j), VALUES)
}

// The id of a name.
#[tactic(auto, unfolding(crate::specs::Row::name_id))]
pub fn name_id(t: &[u16; TERM_WORDS], at: usize) -> usize
    requires { Long t.now }
    ensures { result ≡ name_id t.now at }
{
    cell(t, at, DETAIL) % ID_SPAN
}

// How many arguments a name has.
#[tactic(auto, unfolding(crate::specs::Row::name_count))]
pub fn name_count(t: &[u16; TERM_WORDS], at: usize) -> usize
    requires { Long t.now }
    ensures { result ≡ name_count t.now at }
{
    cell(t, at, DETAIL) / ID_SPAN % COUNT_SPAN
}

// How many second waits a name has: one where it asks once.
#[tactic(auto, unfolding(crate::specs::Row::name_spent))]
pub fn name_spent(t: &[u16; TERM_WORDS], at: usize) -> usize
    requires { Long t.now }
    ensures { result ≡ name_spent t.now at }
{
    cell(t, at, DETAIL) / ONCE
}

// a + b, and 0 where one of them is too large.
#[tactic(auto, unfolding(crate::specs::Row::sum_of))]
pub fn sum(a: usize, b: usize) -> usize
    ensures { result ≡ sum_of a b }
{
    if a < SUM_LIMIT {
        if b < SUM_LIMIT {
            return a + b;
        }
    }
    0
}

// x * w + n, and 0 where one of them is too large.
#[tactic(auto, unfolding(crate::specs::Row::mul_add_of))]
pub fn mul_add(x: usize, w: usize, n: usize) -> usize
    ensures { result ≡ mul_add_of x w n }
{
    if x < FACTOR_LIMIT {
        if w < FACTOR_LIMIT {
            if n < SUM_LIMIT {
                return x * w + n;
            }
        }
    }
    0
}
