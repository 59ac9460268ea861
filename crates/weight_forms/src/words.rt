// Words of forms: one, some cleared, some copied.
ghost use Rattle.std.specs.Prelude.{◌≡◌, ◌<◌, set};
ghost use Rattle.weight_theory.specs.Stack.{spot, form_word, cleared, copied};

use crate::table::{CONSTANT, WIDTH};
use sheet_records::read::get_or;
use sheet_records::store::put;
use sheet_rows::row::FORMS;

// Where word i of a form stands.
#[tactic(auto, unfolding(weight_theory::specs::Stack::spot))]
pub(crate) fn spot(row: usize, i: usize) -> usize
    requires { (row < 65536) × (i < 131072) }
    ensures { result ≡ spot row i }
{
    FORMS + WIDTH * row + i
}

// Word i of a form, 0 past the end.
#[tactic(auto, unfolding(weight_theory::specs::Stack::form_word))]
pub(crate) fn word_at(t: &[u16], row: usize, i: usize) -> u16
    requires { (row < 65536) × (i < 131072) }
    ensures { result ≡ form_word t.now row i }
{
    let at = spot(row, i);
    get_or(t, at, 0)
}

// Stores v in word i of a form, if the table reaches that far.
pub(crate) fn put_word(t: &mut [u16], row: usize, i: usize, v: u16)
    requires { (row < 65536) × (i < 131072) }
    ensures { t.new ≡ set t.old (spot row i) v }
{
    let at = spot(row, i);
    put(t, at, v);
}

// The n words from one on become 0.
#[tactic(auto, unfolding(weight_theory::specs::Stack::cleared))]
pub(crate) fn clear(t: &mut [u16], at: usize, n: usize)
    requires { (at < 16777216) × (n < 131072) }
    ensures { t.new ≡ cleared at n t.old }
{
    for i in 0..n {
        put(t, at + i, 0);
    }
}

// The n words of a form from the constant on become those of another.
#[tactic(auto, unfolding(weight_theory::specs::Stack::copied))]
pub(crate) fn copy(t: &mut [u16], to: usize, from: usize, n: usize)
    requires { (to < 65536) × ((from < 65536) × (n < 131071)) }
    ensures { t.new ≡ copied to from n t.old }
{
    for i in 0..n {
        let v = word_at(t, from, CONSTANT + i);
        put_word(t, to, CONSTANT + i, v);
    }
}
