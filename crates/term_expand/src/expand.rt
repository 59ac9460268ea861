// The expansion: a cycle of functions, a bound of the turns to come falling. Slots hold, by the numbers of the
// enclosing binders, the row of a new and the row of a parameter's argument; who changes them works on a copy, one for
// all scopes and uses of procedures on the way to a row.
ghost use Rattle.std.specs.Prelude.{◌≡◌, ◌+◌, ◌<◌, get_or};
ghost use Rattle.term_closing.specs.Close.{come_of};
ghost use Rattle.term_expand.specs.Contract.{Expanding, Piece, Pieces, Closed, Entered, Recorded, Top, Readied};

use sheet_records::limits::MOST_BYTES;
use sheet_rows::row::TABLE;
use sheet_rows::short_kind::{NEW, PROCEDURE, ROUTINE};
use term_closing::close::{NO_ROW, close_leaf, close_row, parts_of, stays};
use term_closing::words::{
    DETAIL, KIND, PARTS, come_at, more, pass, passed_of, procedure_of, put_slot, slot_at, used_at,
    word_at,
};

// The words of all rows. They, the marks and the table of parts are arrays and not slices because a slice, which is two
// words, goes through memory at every call of the cycle.
pub const TERM_WORDS: usize = 110592;

// A bound of all turns: 4,097 for each place that a part may end at.
const TURNS: u32 = 16785409;

// The row that a part became, and how many rows are made then.
#[derive(Drop)]
pub struct Made {
    pub row: u16,
    pub count: u16,
}

// The rows of four parts, and how many rows are made then.
#[derive(Drop)]
struct Four {
    a: u16,
    b: u16,
    c: u16,
    d: u16,
    count: u16,
}

// Where to go on: at a place, where so many binders are around and so many rows made.
#[derive(Drop)]
struct Turn {
    at: u16,
    level: u16,
    count: u16,
}

// Expands the part at a place, which comes down to no parameter.
#[cycle(expand)]
fn expand(
    t: &[u16; TABLE],
    marks: &[u16; MOST_BYTES],
    slots: &[u16; 128],
    rows: &mut [u16; TERM_WORDS],
    level: u16,
    left: u32,
    n: u16,
    at: u16,
) -> Made
    requires { come_of (get_or marks.now at 0) ≡ 0 }
    ensures { Expanding t.now marks.now slots.now level left at
        rows.old rows.new n result.row result.count }
{
    let kind = word_at(t, at, KIND);
    if !stays(kind) {
        let own = expand_own(t, marks, slots, rows, level, left, n, at);
        return Made {
            row: own.row,
            count: own.count,
        };
    }
    if left == 0 {
        return Made {
            row: NO_ROW,
            count: n,
        };
    }
    let count = expand_row(t, marks, slots, rows, level, left - 1, n, at);
    Made { row: n, count }
}

// Expands the part at a place in its own copy of the slots: the scopes and the terms of procedures that it comes to are
// the turns of a loop.
#[cycle(expand)]
fn expand_own(
    t: &[u16; TABLE],
    marks: &[u16; MOST_BYTES],
    slots: &[u16; 128],
    rows: &mut [u16; TERM_WORDS],
    level: u16,
    left: u32,
    n: u16,
    at: u16,
) -> Made
    ensures { Expanding t.now marks.now slots.now level left at
        rows.old rows.new n result.row result.count }
{
    let mut own = *slots;
    let mut here = at;
    let mut around = level;
    let mut made = n;
    for turns in (0..left).rev() {
        let come = come_at(marks, here);
        if 0 < come {
            return Made {
                row: slot_at(&own, come - 1),
                count: made,
            };
        }
        let kind = word_at(t, here, KIND);
        if kind == PROCEDURE {
            here = word_at(t, here, PARTS + 1);
            around = more(around, 1);
            continue;
        }
        if kind != ROUTINE {
            return expand_record(t, marks, &mut own, rows, around, turns, made, here);
        }
        let next = enter(t, marks, &mut own, rows, around, turns, made, here);
        here = next.at;
        around = next.level;
        made = next.count;
    }
    Made {
        row: NO_ROW,
        count: made,
    }
}

// Enters the procedure that is used at a place: the arguments that it uses are expanded in the slots of the caller,
// then its slots become their rows. What is left is its term.
#[cycle(expand)]
fn enter(
    t: &[u16; TABLE],
    marks: &[u16; MOST_BYTES],
    own: &mut [u16; 128],
    rows: &mut [u16; TERM_WORDS],
    level: u16,
    left: u32,
    n: u16,
    at: u16,
) -> Turn
    ensures { Entered t.now marks.now own.old own.new level left at
        rows.old rows.new n result.at result.level result.count }
{
    let detail = word_at(t, at, DETAIL);
    let p = procedure_of(detail);
    let k = word_at(t, p, DETAIL);
    let body = word_at(t, p, PARTS);
    let four = expand_parts(t, marks, own, rows, level, left, n, at, used_at(marks, p));
    pass(own, k, four.a, four.b, four.c, four.d);
    Turn {
        at: body,
        level: more(k, passed_of(detail)),
        count: four.count,
    }
}

// Makes row n for a part that is neither the scope nor the use of a procedure.
#[cycle(expand)]
fn expand_record(
    t: &[u16; TABLE],
    marks: &[u16; MOST_BYTES],
    own: &mut [u16; 128],
    rows: &mut [u16; TERM_WORDS],
    level: u16,
    left: u32,
    n: u16,
    at: u16,
) -> Made
    ensures { Recorded t.now marks.now own.old level left at
        rows.old rows.new n result.row result.count }
{
    let kind = word_at(t, at, KIND);
    if kind == NEW {
        put_slot(own, level, n);
        let count = expand_row(t, marks, own, rows, more(level, 1), left, n, at);
        return Made { row: n, count };
    }
    let count = expand_row(t, marks, own, rows, level, left, n, at);
    Made { row: n, count }
}

// Makes row n for the part at a place, after the rows of its parts, and says how many are made then. A part without
// parts, as every second one is, has a shorter way.
#[cycle(expand)]
fn expand_row(
    t: &[u16; TABLE],
    marks: &[u16; MOST_BYTES],
    slots: &[u16; 128],
    rows: &mut [u16; TERM_WORDS],
    level: u16,
    left: u32,
    n: u16,
    at: u16,
) -> u16
    ensures { Closed t.now marks.now slots.now level left at
        rows.old rows.new n result }
{
    let wanted = parts_of(word_at(t, at, KIND), word_at(t, at, DETAIL));
    if wanted == 0 {
        close_leaf(t, slots, rows, at, n);
        return more(n, 1);
    }
    let four = expand_parts(t, marks, slots, rows, level, left, more(n, 1), at, wanted);
    close_row(t, slots, rows, at, n, four.a, four.b, four.c, four.d);
    four.count
}

// Expands those parts of the part at a place whose bits are wanted, in their order.
#[cycle(expand)]
fn expand_parts(
    t: &[u16; TABLE],
    marks: &[u16; MOST_BYTES],
    slots: &[u16; 128],
    rows: &mut [u16; TERM_WORDS],
    level: u16,
    left: u32,
    n: u16,
    at: u16,
    wanted: u16,
) -> Four
    ensures { Pieces t.now marks.now slots.now level left at wanted
        rows.old rows.new n result.a result.b result.c result.d result.count }
{
    let later = wanted / 2;
    let last = later / 2;
    let a = expand_part(t, marks, slots, rows, level, left, n, at, wanted % 2, 0);
    let i = a.count;
    let b = expand_part(t, marks, slots, rows, level, left, i, at, later % 2, 1);
    if last == 0 {
        return Four {
            a: a.row,
            b: b.row,
            c: NO_ROW,
            d: NO_ROW,
            count: b.count,
        };
    }
    let c = expand_part(t, marks, slots, rows, level, left, b.count, at, last % 2, 2);
    let j = c.count;
    let fourth = last / 2;
    let d = expand_part(t, marks, slots, rows, level, left, j, at, fourth % 2, 3);
    Four {
        a: a.row,
        b: b.row,
        c: c.row,
        d: d.row,
        count: d.count,
    }
}

// Expands part j of the part at a place, where it is wanted: one that comes down to a parameter is that parameter's
// row.
#[cycle(expand)]
fn expand_part(
    t: &[u16; TABLE],
    marks: &[u16; MOST_BYTES],
    slots: &[u16; 128],
    rows: &mut [u16; TERM_WORDS],
    level: u16,
    left: u32,
    n: u16,
    at: u16,
    wants: u16,
    j: u16,
) -> Made
    requires { j < 4 }
    ensures { Piece t.now marks.now slots.now level left at wants j
        rows.old rows.new n result.row result.count }
{
    if wants == 0 {
        return Made {
            row: NO_ROW,
            count: n,
        };
    }
    let part = word_at(t, at, PARTS + j);
    let come = come_at(marks, part);
    if 0 < come {
        return Made {
            row: slot_at(slots, come - 1),
            count: n,
        };
    }
    expand(t, marks, slots, rows, level, left, n, part)
}

// Expands the whole term, which the table has at a place: its row, and how many rows are made.
pub fn expand_term(
    t: &[u16; TABLE],
    marks: &[u16; MOST_BYTES],
    rows: &mut [u16; TERM_WORDS],
    at: u16,
) -> Made
    requires { Readied t.now marks.now at rows.old }
    ensures { Top t.now marks.now at rows.old rows.new
        result.row result.count }
{
    let slots = [NO_ROW; 128];
    expand_own(t, marks, &slots, rows, 0, TURNS, 0, at)
}
