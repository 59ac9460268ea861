// The parts of a term: a cycle of eight functions, the remaining depth and bytes falling. For speed a record is handed
// on by its place, its rule and its body bytes, and all but `read_parts` and `read_next` are called at one place each,
// so that the cycle is compiled into few functions.
ghost use Rattle.std.specs.Prelude.{◌≡◌, ◌+◌, ◌*◌, ◌≤◌, ◌<◌, length};
ghost use Rattle.sheet_heads.specs.Bare.{bare};
ghost use Rattle.sheet_parts.specs.Scope.{opens, usable};
ghost use Rattle.sheet_parts.specs.declared.scope.Opens.TheVariants.{Block, Routine};
ghost use Rattle.sheet_reader.specs.Reader.{parts_of, scope_parts, read_record, read_part};
ghost use Rattle.sheet_reader.specs.table.Fill.{fill, fills, fills_next, Reads, Beyond, Ends, closed_answer, closed_table};

use crate::close::{close_leaf, close_sum, leaf_of};
use crate::note::note_use;
use crate::number::used_number;
use language::Numbers;
use sheet_heads::head::{Record, bare_record, head_at};
use sheet_parts::scope::{Opens, enter, enter_parameters, enter_procedure, opens_of};
use sheet_parts::typing::{accepts_part, type_of};
use sheet_records::edition::Edition;
use sheet_records::kind::Rule;
use sheet_records::limits::GREATEST_DEPTH;
use sheet_records::refusal::{Reason, Refusal, refuse};
use sheet_rows::row::{link, write_row};
use weight_records::record::weigh_record;

// The number of the second part of a record.
const SECOND: u8 = 1;

// What was read: its type and the place after it. The type has 32 bits because an answer is copied with all bytes
// between its fields, and these are then copied fastest.
#[derive(Drop)]
pub(crate) struct Part {
    pub ty: u32,
    pub next: usize,
}

// The answer and the row of a record that `around` binders enclose, from the answer of its parts; a use of a declared
// name is noted, and the record is weighed.
fn close_record(
    s: &[u8],
    t: &mut [u16],
    n: Numbers,
    around: u8,
    r: Record,
    parts: Result<Part, Refusal>,
) -> Result<Part, Refusal>
    requires { (r.place < 4096) × Ends 4096 parts }
    ensures answer { result ≡ closed_answer s.now r parts }
    ensures table { t.new ≡ closed_table n s.now around r parts t.old }
{
    // `let .. else`, not `?`: the form of document 01 in which a refusal is handed on.
    let Ok(last) = parts else {
        return parts;
    };
    let ty = last.ty as u8;
    let next = last.next;
    if let Some(closed) = close_sum(t, n, r, ty, next) {
        return Ok(Part {
            ty: closed as u32,
            next,
        });
    }
    let rule = r.rule;
    let own = type_of(rule, s, r, ty);
    write_row(t, n, r, own, around, next);
    note_use(t, r);
    let k = used_number(r);
    weigh_record(t, r.place, k);
    Ok(Part {
        ty: own as u32,
        next,
    })
}

// Reads the part at a place, with `left` levels of depth left, inside `around` binders. Where no level is left its head
// is refused.
#[cycle(parts)]
fn read_part(
    edition: Edition,
    s: &[u8],
    st: &[u32; 255],
    t: &mut [u16],
    n: Numbers,
    around: u8,
    left: u8,
    at: usize,
) -> Result<Part, Refusal>
    requires { (length s.now ≤ 4096) × (around + 4 * left ≤ 128) }
    ensures reads { Reads (fill n) (read_part edition left n s.now st.now around at) result
        t.old t.new }
    ensures beyond { Beyond at (length s.now) result }
{
    let record = head_at(edition, s, st, n, left, at)?;
    let Some(row) = leaf_of(s, n, record) else {
        return read_record(edition, s, st, t, n, around, left - 1, record);
    };
    close_leaf(t, n, record, row.kind, row.ty, row.detail);
    Ok(Part {
        ty: row.ty as u32,
        next: record.next,
    })
}

// Reads a record whose head is judged: a use with its arguments, or another with its parts.
#[cycle(parts)]
fn read_record(
    edition: Edition,
    s: &[u8],
    st: &[u32; 255],
    t: &mut [u16],
    n: Numbers,
    around: u8,
    left: u8,
    r: Record,
) -> Result<Part, Refusal>
    requires { (length s.now ≤ 4096) × (around + 4 * left + 4 ≤ 128) × (r.place < 4096)
        × (r.next ≤ length s.now) × (opens r.rule ≡ Block → r.b ≤ 2) × (opens r.rule ≡ Routine → r.b ≤ 4) }
    ensures { Reads (fill n)
        (read_record (read_part edition left n s.now) s.now st.now around r) result
        t.old t.new }
{
    let parts = read_scope(edition, s, st, t, n, around, left, r);
    close_record(s, t, n, around, r, parts)
}

// Reads the parts of a record, in the scopes that it opens.
#[cycle(parts)]
fn read_scope(
    edition: Edition,
    s: &[u8],
    st: &[u32; 255],
    t: &mut [u16],
    n: Numbers,
    around: u8,
    left: u8,
    r: Record,
) -> Result<Part, Refusal>
    requires { (length s.now ≤ 4096) × (around + 4 * left + 4 ≤ 128) × (r.place < 4096)
        × (r.next ≤ length s.now) × (opens r.rule ≡ Block → r.b ≤ 2) × (opens r.rule ≡ Routine → r.b ≤ 4) }
    ensures { Reads (λ ts. fills n ts r.place 0)
        (scope_parts (opens r.rule) (read_part edition left n s.now) s.now st.now
        around r) result
        t.old t.new }
{
    let rule = r.rule;
    let opened = opens_of(rule);
    match opened {
        Opens::Nothing => read_parts(
            edition, s, st, t, n, around, left, r.place, rule, r.a, r.b, r.parts, 0, 0, r.next,
        ),
        Opens::Block => read_block(edition, s, st, t, n, around, left, r),
        Opens::Routine => read_routine(edition, s, st, t, n, around, left, r),
    }
}

// Reads the block of a new, in which its variable is seen.
#[cycle(parts)]
fn read_block(
    edition: Edition,
    s: &[u8],
    st: &[u32; 255],
    t: &mut [u16],
    n: Numbers,
    around: u8,
    left: u8,
    r: Record,
) -> Result<Part, Refusal>
    requires { (length s.now ≤ 4096) × (around + 4 * left + 4 ≤ 128) × (r.place < 4096)
        × (r.next ≤ length s.now) × (r.b ≤ 2) }
    ensures { Reads (λ ts. fills n ts r.place 0)
        (scope_parts Block (read_part edition left n s.now) s.now st.now around r) result
        t.old t.new }
{
    let rule = r.rule;
    let mut inner = *st;
    enter(&mut inner, r, around);
    read_parts(
        edition,
        s,
        &inner,
        t,
        n,
        around + 1,
        left,
        r.place,
        rule,
        r.a,
        r.b,
        r.parts,
        0,
        0,
        r.next,
    )
}

// Reads the two terms of a procedure: in the first its parameters are seen, in the second the procedure itself.
#[cycle(parts)]
fn read_routine(
    edition: Edition,
    s: &[u8],
    st: &[u32; 255],
    t: &mut [u16],
    n: Numbers,
    around: u8,
    left: u8,
    r: Record,
) -> Result<Part, Refusal>
    requires { (length s.now ≤ 4096) × (around + 4 * left + 4 ≤ 128) × (r.place < 4096)
        × (r.next ≤ length s.now) × (r.b ≤ 4) }
    ensures { Reads (λ ts. fills n ts r.place 0)
        (scope_parts Routine (read_part edition left n s.now) s.now st.now around r) result
        t.old t.new }
{
    let rule = r.rule;
    let count = r.b as u8;
    let mut inner = *st;
    enter_parameters(s, r.place, around, count, &mut inner);
    let own = read_parts(
        edition,
        s,
        &inner,
        t,
        n,
        around + count,
        left,
        r.place,
        rule,
        r.a,
        r.b,
        1,
        0,
        0,
        r.next,
    )?;
    read_usable(
        edition,
        s,
        st,
        t,
        n,
        around,
        left,
        r,
        own.ty as u8,
        own.next,
    )
}

// Reads the second term of a procedure, at a place; the first has type prev.
#[cycle(parts)]
fn read_usable(
    edition: Edition,
    s: &[u8],
    st: &[u32; 255],
    t: &mut [u16],
    n: Numbers,
    around: u8,
    left: u8,
    r: Record,
    prev: u8,
    at: usize,
) -> Result<Part, Refusal>
    requires { (length s.now ≤ 4096) × (around + 4 * left + 4 ≤ 128) × (r.place < 4096) × (at ≤ length s.now) }
    ensures { Reads (λ ts. fills n ts r.place 1)
        (parts_of (read_part edition left n s.now (usable st.now r around) (around + 1))
        s.now r 1 1 prev at) result
        t.old t.new }
{
    let rule = r.rule;
    let mut outer = *st;
    enter_procedure(&mut outer, r, around);
    read_parts(
        edition,
        s,
        &outer,
        t,
        n,
        around + 1,
        left,
        r.place,
        rule,
        r.a,
        r.b,
        1,
        SECOND,
        prev,
        at,
    )
}

// Reads `count` parts, from part j on, of the record at a place whose rule and body bytes are given; the part before
// them has type prev.
#[cycle(parts)]
fn read_parts(
    edition: Edition,
    s: &[u8],
    st: &[u32; 255],
    t: &mut [u16],
    n: Numbers,
    around: u8,
    left: u8,
    place: usize,
    rule: Rule,
    a: u8,
    b: u32,
    count: u8,
    j: u8,
    prev: u8,
    at: usize,
) -> Result<Part, Refusal>
    requires { (length s.now ≤ 4096) × (around + 4 * left ≤ 128) × (place < 4096) × (at ≤ length s.now)
        × (j + count ≤ 255) }
    ensures { Reads (λ ts. fills n ts place j)
        (parts_of (read_part edition left n s.now st.now around) s.now
        (bare place rule a b) count j prev at) result
        t.old t.new }
{
    if count == 0 {
        return Ok(Part {
            ty: prev as u32,
            next: at,
        });
    }
    link(t, place, j, at);
    read_next(
        edition, s, st, t, n, around, left, place, rule, a, b, count, j, prev, at,
    )
}

// Reads the first of these parts, whose place is in the row already, and the others.
#[cycle(parts)]
fn read_next(
    edition: Edition,
    s: &[u8],
    st: &[u32; 255],
    t: &mut [u16],
    n: Numbers,
    around: u8,
    left: u8,
    place: usize,
    rule: Rule,
    a: u8,
    b: u32,
    count: u8,
    j: u8,
    prev: u8,
    at: usize,
) -> Result<Part, Refusal>
    requires { (length s.now ≤ 4096) × (around + 4 * left ≤ 128) × (place < 4096) × (j + count ≤ 255)
        × (0 < count) }
    ensures { Reads (λ ts. fills_next n ts place j)
        (parts_of (read_part edition left n s.now st.now around) s.now
        (bare place rule a b) count j prev at) result
        t.old t.new }
{
    let p = read_part(edition, s, st, t, n, around, left, at);
    // `let .. else`, not `?`: the form of document 01 in which a refusal is handed on.
    let Ok(part) = p else {
        return p;
    };
    let ty = part.ty as u8;
    let next = part.next;
    if !accepts_part(rule, s, bare_record(place, rule, a, b), j, prev, ty) {
        return Err(refuse(Reason::WrongType, at));
    }
    read_parts(
        edition,
        s,
        st,
        t,
        n,
        around,
        left,
        place,
        rule,
        a,
        b,
        count - 1,
        j + 1,
        ty,
        next,
    )
}

// Reads the term at a place, which is no record's part: as the second part of a sequence, which may have any type.
pub(crate) fn read_root(
    edition: Edition,
    s: &[u8],
    st: &[u32; 255],
    t: &mut [u16],
    n: Numbers,
    at: usize,
) -> Result<Part, Refusal>
    requires { length s.now ≤ 4096 }
    ensures { Reads (fill n) (read_part edition 32 n s.now st.now 0 at) result
        t.old t.new }
{
    read_next(
        edition,
        s,
        st,
        t,
        n,
        0,
        GREATEST_DEPTH,
        0,
        Rule::Sequence,
        0,
        0,
        1,
        SECOND,
        0,
        at,
    )
}
