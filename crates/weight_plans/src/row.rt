// Rows of the table of parts, what a use's row says of the procedure, and the stack of forms.
ghost use Rattle.std.specs.Prelude.{◌≡◌, ◌<◌};
ghost use Rattle.sheet_rows.specs.PartKind.{ROW-WORDS};
ghost use Rattle.sheet_rows.specs.Row.{word};
ghost use Rattle.weight_theory.specs.Plan.{term_place, term_form};
ghost use Rattle.weight_theory.specs.Stack.{height_of, slot_of};

use sheet_records::read::get_or;
use sheet_rows::pack::PLACE_SPAN;
use sheet_rows::row::{HEIGHT, PARTS, SLOTS, word_of};

// A word as a number of 32 bits.
pub(crate) fn short(x: usize) -> u32
    requires { x < 65536 }
    ensures { (result ≡ x) × (result < 65536) }
{
    x as u32
}

// Word i of the row at a place, as a number of 32 bits.
pub fn short_of(t: &[u16], place: usize, i: usize) -> u32
    requires { (place < 65536) × (i < ROW-WORDS) }
    ensures { (result ≡ word t.now place i) × (result < 65536) }
{
    short(word_of(t, place, i))
}

// How many forms are on the stack.
#[tactic(auto, unfolding(weight_theory::specs::Stack::height_of))]
pub fn height_of(t: &[u16]) -> usize
    ensures { (result ≡ height_of t.now) × (result < 65536) }
{
    get_or(t, HEIGHT, 0) as usize
}

// Which form is that of the part at a place.
#[tactic(auto, unfolding(weight_theory::specs::Stack::slot_of))]
fn slot_of(t: &[u16], place: usize) -> usize
    requires { place < 65536 }
    ensures { (result ≡ slot_of t.now place) × (result < 65536) }
{
    get_or(t, SLOTS + place, 0) as usize
}

// Where the term of the procedure stands that a use with the given detail means.
#[tactic(auto, unfolding(weight_theory::specs::Plan::term_place))]
pub(crate) fn term_place(t: &[u16], detail: usize) -> usize
    ensures { (result ≡ term_place t.now detail) × (result < 65536) }
{
    word_of(t, detail % PLACE_SPAN, PARTS)
}

// Which form is that of this term.
#[tactic(auto, unfolding(weight_theory::specs::Plan::term_form))]
pub(crate) fn term_form(t: &[u16], detail: usize) -> usize
    ensures { (result ≡ term_form t.now detail) × (result < 65536) }
{
    slot_of(t, term_place(t, detail))
}
