// Sums of forms.
ghost use Rattle.std.specs.Prelude.{◌≡◌, ◌+◌, ◌*◌, ◌<◌, set};
ghost use Rattle.sheet_written.specs.Held.{held};
ghost use Rattle.weight_theory.specs.Stack.{spot, form_word, widened, summed, added_form};

use crate::read::width;
use crate::table::{COEFFICIENTS, CONSTANT, COUNT};
use crate::words::{clear, put_word, spot, word_at};
use sheet_parts::weight::{sat_add, sat_mul};

// x + factor * y, held at 4,097.
#[tactic(auto, unfolding(sheet_written::specs::Held::held))]
fn sum_of(x: u32, factor: u32, y: u32) -> u32
    ensures { result ≡ held (x + factor * y) }
{
    sat_add(x, sat_mul(factor, y))
}

// A form gets at least n coefficients.
#[tactic(auto, unfolding(weight_theory::specs::Stack::widened, weight_theory::specs::Stack::spot))]
fn widen(t: &mut [u16], to: usize, n: usize)
    requires { (to < 65536) × (n < 65536) }
    ensures { t.new ≡ widened to n t.old }
{
    let w = width(t, to);
    if w < n {
        let at = spot(to, COEFFICIENTS + w);
        clear(t, at, n - w);
        put_word(t, to, COUNT, n as u16);
    }
}

// The n words of a form from the constant on become themselves and `factor` times those of another.
#[tactic(auto, unfolding(weight_theory::specs::Stack::summed, sheet_written::specs::Held::held))]
fn add_words(t: &mut [u16], to: usize, from: usize, factor: u32, n: usize)
    requires { (to < 65536) × ((from < 65536) × (n < 131071)) }
    ensures { t.new ≡ summed to from factor n t.old }
{
    for i in 0..n {
        let x = word_at(t, to, CONSTANT + i) as u32;
        let y = word_at(t, from, CONSTANT + i) as u32;
        let v = sum_of(x, factor, y);
        put_word(t, to, CONSTANT + i, v as u16);
    }
}

// A form becomes itself and the constant c.
#[tactic(auto, unfolding(sheet_written::specs::Held::held))]
fn add_constant(t: &mut [u16], to: usize, c: u32)
    requires { to < 65536 }
    ensures { t.new ≡ set t.old (spot to 1) (held (form_word t.old to 1 + c)) }
{
    let x = word_at(t, to, CONSTANT) as u32;
    let v = sat_add(x, c);
    put_word(t, to, CONSTANT, v as u16);
}

// A form becomes itself, `factor` times another, and the constant `extra`.
#[tactic(auto, unfolding(weight_theory::specs::Stack::added_form))]
pub fn add(t: &mut [u16], to: usize, from: usize, factor: u32, extra: u32)
    requires { (to < 65536) × (from < 65536) }
    ensures { t.new ≡ added_form to from factor extra t.old }
{
    let n = width(t, from);
    widen(t, to, n);
    add_words(t, to, from, factor, 1 + n);
    add_constant(t, to, extra);
}
