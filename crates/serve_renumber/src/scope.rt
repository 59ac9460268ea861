// An id's entry in the scope: how many arguments a use has and, where an enclosing binder has the id, which id the
// innermost of these now has.
ghost use Rattle.std.specs.Prelude.{◌≡◌, ◌≤◌, ◌<◌};
ghost use Rattle.serve_renumber.specs.Work.{named_entry, bound_entry, held_in, arguments_in, becomes_in};

use sheet_rows::pack::{COUNT_SPAN, ID_SPAN};

// The entry of an id which an enclosing binder has is at least this.
const FIRST_BOUND: usize = 2048;

// The entry of a name with so many arguments.
pub(crate) fn named_entry(count: usize) -> usize
    requires { count < 256 }
    ensures { (result ≡ named_entry count) × (result < 65536) }
{
    ID_SPAN * count
}

// The entry of a binder whose id is now `given`, with so many arguments.
pub(crate) fn bound_entry(given: usize, count: usize) -> usize
    requires { (given < 256) × (count ≤ 4) }
    ensures { (result ≡ bound_entry given count) × (result < 65536) }
{
    FIRST_BOUND + ID_SPAN * count + given
}

// Whether an enclosing binder has the id.
pub(crate) fn held(e: usize) -> bool
    ensures { result ≡ held_in e }
{
    FIRST_BOUND <= e
}

// How many arguments a use of the id has.
pub(crate) fn arguments(e: usize) -> usize
    ensures { (result ≡ arguments_in e) × (result < 8) }
{
    e / ID_SPAN % COUNT_SPAN
}

// What the id becomes.
pub(crate) fn becomes(e: usize, id: usize) -> usize
    requires { id < 256 }
    ensures { (result ≡ becomes_in e id) × (result < 256) }
{
    if FIRST_BOUND <= e {
        return e % ID_SPAN;
    }
    id
}
