// Forms that are written anew.
ghost use Rattle.std.specs.Prelude.{◌≡◌, ◌<◌, min, length, ltb};
ghost use Rattle.weight_theory.specs.Stack.{spot, constant_form, unit_form, lower_form};

use crate::read::width;
use crate::table::{COEFFICIENTS, CONSTANT, COUNT};
use crate::words::{clear, copy, put_word, spot};
use sheet_parts::weight::sat_add;

// The lesser of two numbers.
pub fn least(a: usize, b: usize) -> usize
    ensures { result ≡ min a b }
{
    a.min(b)
}

// A form becomes the constant c.
#[tactic(auto, unfolding(weight_theory::specs::Stack::constant_form, sheet_written::specs::Held::held))]
pub fn set_constant(t: &mut [u16], row: usize, c: u32)
    requires { row < 65536 }
    ensures { t.new ≡ constant_form row c t.old }
{
    let v = sat_add(c, 0) as u16;
    put_word(t, row, COUNT, 0);
    put_word(t, row, CONSTANT, v);
}

// Whether the table has the words of a form without coefficients.
pub fn has_form(t: &[u16], row: usize) -> bool
    requires { row < 65536 }
    ensures { result ≡ ltb (spot row 1) (length t.now) }
{
    spot(row, CONSTANT) < t.len()
}

// A form becomes the parameter s.
#[tactic(auto, unfolding(weight_theory::specs::Stack::unit_form, weight_theory::specs::Stack::spot))]
pub fn set_unit(t: &mut [u16], row: usize, s: usize)
    requires { (row < 65536) × (s < 65535) }
    ensures { t.new ≡ unit_form row s t.old }
{
    let n = 1 + s;
    put_word(t, row, COUNT, n as u16);
    let at = spot(row, CONSTANT);
    clear(t, at, n);
    put_word(t, row, COEFFICIENTS + s, 1);
}

// A form becomes another without its coefficients from k on.
#[tactic(auto, unfolding(weight_theory::specs::Stack::lower_form))]
pub fn set_lower(t: &mut [u16], to: usize, from: usize, k: usize)
    requires { (to < 65536) × (from < 65536) }
    ensures { t.new ≡ lower_form to from k t.old }
{
    let w = width(t, from);
    let n = k.min(w);
    put_word(t, to, COUNT, n as u16);
    copy(t, to, from, 1 + n);
}
