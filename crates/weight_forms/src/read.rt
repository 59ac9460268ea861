// What a form says.
ghost use Rattle.std.specs.Prelude.{◌≡◌, ◌<◌};
ghost use Rattle.weight_theory.specs.Stack.{form_word, coefficient_of};

use crate::table::{COEFFICIENTS, CONSTANT, COUNT};
use crate::words::word_at;

// How many coefficients a form has. Two names over word_at: word_at(t, row, COUNT) at the uses would be no plainer.
pub fn width(t: &[u16], row: usize) -> usize
    requires { row < 65536 }
    ensures { (result ≡ form_word t.now row 0) × (result < 65536) }
{
    word_at(t, row, COUNT) as usize
}

// The constant of a form.
pub fn constant(t: &[u16], row: usize) -> u32
    requires { row < 65536 }
    ensures { (result ≡ form_word t.now row 1) × (result < 65536) }
{
    word_at(t, row, CONSTANT) as u32
}

// The coefficient of the parameter s in a form.
#[tactic(auto, unfolding(weight_theory::specs::Stack::coefficient_of))]
pub fn coefficient(t: &[u16], row: usize, s: usize) -> u32
    requires { row < 65536 }
    ensures { (result ≡ coefficient_of t.now row s) × (result < 65536) }
{
    if s < width(t, row) {
        return word_at(t, row, COEFFICIENTS + s) as u32;
    }
    0
}
