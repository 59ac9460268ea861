// The pass over the bytes of a term: a cycle of functions, the levels of depth left falling. Ids are read off the sheet
// and written into its copy; the ids taken and the list of changes grow.
ghost use Rattle.std.specs.Prelude.{◌≡◌, ◌+◌, ◌*◌, ◌≤◌, ◌<◌, set};
ghost use Rattle.serve_renumber.specs.Work.{note};
ghost use Rattle.serve_renumber.specs.Found.{IdFound, ParametersFound, PartFound, PartsFound, CallFound, BlockFound};
ghost use Rattle.serve_renumber.specs.Found.{RoutineFound};

use crate::bytes::{byte, put, put_word, word};
use crate::renumber::{CHANGE, LIST};
use crate::scope::{arguments, becomes, bound_entry, held};
use crate::step::Step;
use crate::taken::{IDS, TAKEN, lowest_free};
use sheet_records::kind::{COUNT, ID, NEW, PARAMETER_IDS, PROCEDURE, USE, body_of, parts_of};
use sheet_records::limits::{MOST_ARGUMENTS, MOST_BYTES};
use sheet_records::read::get_or;
use weight_forms::set::least;

// The bytes of a parameter.
const PAIR: usize = 2;

// Writes change n: the place of the id byte, low byte first, the old id and the new one.
fn note_change(list: &mut [u8; LIST], n: usize, place: usize, id: usize, given: usize)
    requires { (n ≤ 8192) × (place ≤ 8192) × (id < 256) × (given < 256) }
    ensures { list.new ≡ note n (record { place = place; old = id; given = given }) list.old }
{
    let i = CHANGE * n;
    put(list, i, place % 256);
    put(list, i + 1, place / 256);
    put(list, i + 2, id);
    put(list, i + 3, given);
}

// The entry of an id becomes e.
fn enter(scope: &mut [u16; IDS], id: usize, e: usize)
    requires { e < 65536 }
    ensures { scope.new ≡ set scope.old id e }
{
    put_word(scope, id, e);
}

// Chooses the id of a binder whose id byte is at a place: the lowest that is not taken where an enclosing one has it.
fn choose_id(
    scope: &[u16; IDS],
    list: &mut [u8; LIST],
    taken: &mut [u8; IDS],
    at: usize,
    id: usize,
    n: usize,
) -> Result<Step, usize>
    requires { (at ≤ 8192) × (id < 256) × (n ≤ 8192) }
    ensures { IdFound scope.now list.old taken.old at id n result
        list.new taken.new }
{
    if !held(word(scope, id)) {
        return Ok(Step {
            value: id,
            changes: n,
        });
    }
    let low = lowest_free(taken);
    if IDS <= low {
        return Err(at);
    }
    note_change(list, n, at, id, low);
    put(taken, low, TAKEN);
    Ok(Step {
        value: low,
        changes: n + 1,
    })
}

// Chooses the ids of `count` parameters, whose pairs begin at a place; `inner` becomes the scope inside.
fn choose_parameters(
    s: &[u8],
    scope: &[u16; IDS],
    inner: &mut [u16; IDS],
    bytes: &mut [u8; MOST_BYTES],
    list: &mut [u8; LIST],
    taken: &mut [u8; IDS],
    at: usize,
    count: usize,
    n: usize,
) -> Result<Step, usize>
    requires { (at + 2 * count ≤ 8192) × (count ≤ 4) × (n + count ≤ 8192) }
    ensures { ParametersFound s.now scope.now inner.old bytes.old
        list.old taken.old at count n result inner.new bytes.new
        list.new taken.new }
{
    if count == 0 {
        return Ok(Step {
            value: 0,
            changes: n,
        });
    }
    let id = byte(s, at);
    let x = choose_id(scope, list, taken, at, id, n)?;
    put(bytes, at, x.value);
    enter(inner, id, bound_entry(x.value, 0));
    choose_parameters(
        s,
        scope,
        inner,
        bytes,
        list,
        taken,
        at + PAIR,
        count - 1,
        x.changes,
    )
}

// Renumbers the part at a place.
#[cycle(renumber)]
pub(crate) fn renumber_part(
    s: &[u8],
    scope: &[u16; IDS],
    bytes: &mut [u8; MOST_BYTES],
    list: &mut [u8; LIST],
    taken: &mut [u8; IDS],
    left: usize,
    at: usize,
    n: usize,
) -> Result<Step, usize>
    requires { (left ≤ 32) × (n ≤ at) × (at ≤ 8192) }
    ensures { PartFound s.now scope.now bytes.old list.old
        taken.old left at n result bytes.new list.new taken.new }
{
    if left == 0 {
        return Err(at);
    }
    if MOST_BYTES <= at {
        return Err(at);
    }
    let kind = get_or(s, at, 0);
    if kind == NEW {
        return renumber_block(s, scope, bytes, list, taken, left - 1, at, n);
    }
    if kind == PROCEDURE {
        return renumber_routine(s, scope, bytes, list, taken, left - 1, at, n);
    }
    if kind == USE {
        return renumber_call(s, scope, bytes, list, taken, left - 1, at, n);
    }
    let from = at + 1 + body_of(kind);
    renumber_parts(
        s,
        scope,
        bytes,
        list,
        taken,
        left - 1,
        from,
        parts_of(kind),
        n,
    )
}

// Renumbers `count` parts, the first at a place.
#[cycle(renumber)]
fn renumber_parts(
    s: &[u8],
    scope: &[u16; IDS],
    bytes: &mut [u8; MOST_BYTES],
    list: &mut [u8; LIST],
    taken: &mut [u8; IDS],
    left: usize,
    at: usize,
    count: usize,
    n: usize,
) -> Result<Step, usize>
    requires { (left < 32) × (n ≤ at) × (at ≤ 8192) × (count < 256) }
    ensures { PartsFound s.now scope.now bytes.old list.old
        taken.old left at count n result bytes.new list.new taken.new }
{
    if count == 0 {
        return Ok(Step {
            value: at,
            changes: n,
        });
    }
    let x = renumber_part(s, scope, bytes, list, taken, left, at, n)?;
    renumber_parts(
        s,
        scope,
        bytes,
        list,
        taken,
        left,
        x.value,
        count - 1,
        x.changes,
    )
}

// Renumbers the use at a place.
#[cycle(renumber)]
fn renumber_call(
    s: &[u8],
    scope: &[u16; IDS],
    bytes: &mut [u8; MOST_BYTES],
    list: &mut [u8; LIST],
    taken: &mut [u8; IDS],
    left: usize,
    at: usize,
    n: usize,
) -> Result<Step, usize>
    requires { (left < 32) × (n ≤ at) × (at ≤ 4096) }
    ensures { CallFound s.now scope.now bytes.old list.old
        taken.old left at n result bytes.new list.new taken.new }
{
    let id = byte(s, at + ID);
    let entry = word(scope, id);
    put(bytes, at + ID, becomes(entry, id));
    let count = arguments(entry);
    let from = at + 1 + body_of(USE);
    renumber_parts(s, scope, bytes, list, taken, left, from, count, n)
}

// Renumbers the new at a place, and its block.
#[cycle(renumber)]
fn renumber_block(
    s: &[u8],
    scope: &[u16; IDS],
    bytes: &mut [u8; MOST_BYTES],
    list: &mut [u8; LIST],
    taken: &mut [u8; IDS],
    left: usize,
    at: usize,
    n: usize,
) -> Result<Step, usize>
    requires { (left < 32) × (n ≤ at) × (at ≤ 4096) }
    ensures { BlockFound s.now scope.now bytes.old list.old
        taken.old left at n result bytes.new list.new taken.new }
{
    let id = byte(s, at + ID);
    let x = choose_id(scope, list, taken, at + ID, id, n)?;
    put(bytes, at + ID, x.value);
    let mut inner = *scope;
    enter(&mut inner, id, bound_entry(x.value, 0));
    let from = at + 1 + body_of(NEW);
    renumber_part(s, &inner, bytes, list, taken, left, from, x.changes)
}

// Renumbers the procedure at a place, its term and the term in which it may be used.
#[cycle(renumber)]
fn renumber_routine(
    s: &[u8],
    scope: &[u16; IDS],
    bytes: &mut [u8; MOST_BYTES],
    list: &mut [u8; LIST],
    taken: &mut [u8; IDS],
    left: usize,
    at: usize,
    n: usize,
) -> Result<Step, usize>
    requires { (left < 32) × (n ≤ at) × (at ≤ 4096) }
    ensures { RoutineFound s.now scope.now bytes.old list.old
        taken.old left at n result bytes.new list.new taken.new }
{
    let id = byte(s, at + ID);
    let count = least(byte(s, at + COUNT), MOST_ARGUMENTS);
    let own = choose_id(scope, list, taken, at + ID, id, n)?;
    put(bytes, at + ID, own.value);
    let mut inner = *scope;
    let first = at + PARAMETER_IDS;
    let y = choose_parameters(
        s,
        scope,
        &mut inner,
        bytes,
        list,
        taken,
        first,
        count,
        own.changes,
    )?;
    let from = at + 1 + body_of(PROCEDURE);
    let z = renumber_part(s, &inner, bytes, list, taken, left, from, y.changes)?;
    let mut after = *scope;
    enter(&mut after, id, bound_entry(own.value, count));
    renumber_part(s, &after, bytes, list, taken, left, z.value, z.changes)
}
