// The weight of a whole term.
ghost use Rattle.std.specs.Prelude.{◌≡◌};
ghost use Rattle.weight_theory.specs.Stack.{form_word};

use weight_forms::read::constant;

// The weight of the term that is read, held at 4,097: its form is the first of the stack.
pub fn weight_of(t: &[u16]) -> u32
    ensures { result ≡ form_word t.now 0 1 }
{
    constant(t, 0)
}
