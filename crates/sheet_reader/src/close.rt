// The row and the weight of a record, by one decision over its rule.
ghost use Rattle.std.specs.Prelude.{◌≡◌, List, eqb, ℕ, ◌-◌, ◌<◌, Some, None, IfSome, IfNone};
ghost use Rattle.language.specs.Choice.{pick};
ghost use Rattle.language.specs.declared.Numbers.{Numbers};
ghost use Rattle.sheet_rows.specs.Row.{row_kind, detail as row_detail, row_written};
ghost use Rattle.weight_records.specs.Few.{LeafKind};
ghost use Rattle.weight_theory.specs.Step.{weighed};
ghost use Rattle.sheet_records.specs.Standing.{standing_of};
ghost use Rattle.sheet_records.specs.declared.kind.Rule.TheVariants.{Operate, Assign};
ghost use Rattle.sheet_parts.specs.Rule.{values};
ghost use Rattle.sheet_parts.specs.Types.{command};
ghost use Rattle.sheet_rows.specs.PartKind.{NEW};
ghost use Rattle.sheet_reader.specs.table.Close.{leaf_use, leaf_row, leaf_of, sum, SumRow};
ghost use Rattle.sheet_reader.specs.table.Fill.{read, closed_answer, closed_table};
ghost use Rattle.sheet_reader.specs.table.Notes.{noted};

use crate::note::note_use;
use language::Numbers;
use sheet_heads::head::Record;
use sheet_parts::typing::{COMMAND, NUMBER, TRUTH, result_type};
use sheet_parts::weight::values_of;
use sheet_records::kind::{ASSIGN, FETCH, IF, NEW, OPERATE, RESULT, Rule, SEQUENCE, WHILE};
use sheet_records::read::get_or;
use sheet_records::standing::{Standing, VARIABLE_TYPE};
use sheet_rows::row::{name_detail, write_typed};
use sheet_rows::short_kind::{CONSTANT, PRIVATE};
use weight_records::record::{first_values, weigh_leaf, weigh_parts, weigh_record};

// The row of a record without parts: its kind, its type and its detail.
#[derive(Drop)]
pub(crate) struct Leaf {
    pub kind: u16,
    pub ty: u8,
    pub detail: u16,
}

// The row of a use without arguments; none of a use of a parameter or of a procedure.
#[tactic(auto, unfolding(crate::specs::table::Close::leaf_use))]
fn leaf_use(s: &[u8], r: Record) -> Option<Leaf>
    ensures { result ≡ leaf_use s.now r (standing_of r.b) }
{
    match Standing::from(r.b) {
        Standing::Free => None,
        Standing::Retired => None,
        Standing::Declared { place, once } => Some(Leaf {
            kind: r.kind as u16,
            ty: get_or(s, place as usize + RESULT, 0),
            detail: name_detail(r.a, 0, once),
        }),
        Standing::Variable { number, holds } => Some(Leaf {
            kind: PRIVATE,
            ty: VARIABLE_TYPE + holds,
            detail: number,
        }),
        Standing::Parameter { number: _, ty: _ } => None,
        Standing::Procedure {
            number: _,
            place: _,
        } => None,
    }
}

// The row of a record without parts; none of one that has parts by its rule.
#[tactic(auto, unfolding(crate::specs::table::Close::leaf_row))]
fn leaf_row(s: &[u8], n: Numbers, r: Record) -> Option<Leaf>
    ensures { result ≡ leaf_row r.rule s.now n r }
{
    let rule = r.rule;
    let kind = r.kind as u16;
    match rule {
        Rule::Skip => Some(Leaf {
            kind,
            ty: COMMAND,
            detail: 0,
        }),
        Rule::Diverge => Some(Leaf {
            kind,
            ty: r.a,
            detail: 0,
        }),
        Rule::Truth => Some(Leaf {
            kind,
            ty: TRUTH,
            detail: r.a as u16,
        }),
        Rule::Number => Some(Leaf {
            kind: CONSTANT,
            ty: NUMBER,
            detail: language_codes::number::code_of_byte(n, r.a),
        }),
        Rule::Use => leaf_use(s, r),
        Rule::Fetch => None,
        Rule::Operate => None,
        Rule::Assign => None,
        Rule::Sequence => None,
        Rule::If => None,
        Rule::While => None,
        Rule::New => None,
        Rule::Procedure => None,
    }
}

// The row of a record, where it has no parts.
#[tactic(auto, unfolding(crate::specs::table::Close::leaf_of))]
pub(crate) fn leaf_of(s: &[u8], n: Numbers, r: Record) -> Option<Leaf>
    ensures { result ≡ leaf_of s.now n r }
{
    if r.parts == 0 {
        return leaf_row(s, n, r);
    }
    None
}

// Writes the row of a record without parts; a use of a declared name is noted, and the record is weighed.
pub(crate) fn close_leaf(t: &mut [u16], n: Numbers, r: Record, kind: u16, ty: u8, detail: u16)
    requires { (r.place < 4096) × (r.next < 65536) }
    ensures { (k around : ℕ) → kind ≡ row_kind r.rule r → detail ≡ row_detail r.rule n r around
        → LeafKind kind detail
        → t.new ≡ weighed k r.place (noted r (row_written n r ty around r.next t.old)) }
{
    write_typed(t, n, r.place, kind, ty, detail, r.next);
    note_use(t, r);
    weigh_leaf(t, r.place, kind as usize, detail as usize);
}

// The row of a record with parts whose weight is the sum of theirs, n in number, the first and the second as often as
// said: its type and its detail. Not of a use, nor of a procedure.
#[derive(Drop)]
struct Sum {
    pub ty: u8,
    pub detail: u16,
    pub parts: usize,
    pub first: u32,
    pub second: u32,
}

// The type of what a variable of a type holds.
fn held_type(ty: u8) -> u8
    ensures { result ≡ ty - 2 }
{
    if ty < VARIABLE_TYPE {
        return 0;
    }
    ty - VARIABLE_TYPE
}

// The row of a record without a detail, each part of which is weighed once, where its kind is the one that it must be.
fn plain_row(found: u8, kind: u8, ty: u8, parts: usize) -> Option<Sum>
    ensures { result ≡ pick (eqb found kind) (Some (sum ty 0 parts 1 1)) None }
{
    if found == kind {
        return Some(Sum {
            ty,
            detail: 0,
            parts,
            first: 1,
            second: 1,
        });
    }
    None
}

// The row of an operation: its second part is weighed for each value of the first.
fn operate_row(t: &[u16], r: Record) -> Option<Sum>
    requires { r.place < 4096 }
    ensures { (n : Numbers) (last : ℕ) → r.rule ≡ Operate → SumRow t.now n r last result }
{
    if r.kind != OPERATE {
        return None;
    }
    let second = first_values(t, r.place);
    if second == 0 {
        return None;
    }
    Some(Sum {
        ty: result_type(r.a),
        detail: r.a as u16,
        parts: 2,
        first: 1,
        second,
    })
}

// The row of an assignment: its variable is weighed for each value.
fn assign_row(t: &[u16], r: Record) -> Option<Sum>
    requires { r.place < 4096 }
    ensures { (n : Numbers) (last : ℕ) → r.rule ≡ Assign → SumRow t.now n r last result }
{
    if r.kind != ASSIGN {
        return None;
    }
    let first = first_values(t, r.place);
    if first == 0 {
        return None;
    }
    Some(Sum {
        ty: COMMAND,
        detail: 0,
        parts: 2,
        first,
        second: 1,
    })
}

// The row of a new: its block is weighed for each value of the variable.
fn new_row(n: Numbers, found: u8, holds: u32) -> Option<Sum>
    ensures { result ≡ pick (eqb found NEW) (Some (sum command (values n holds) 1 (values n holds) 1)) None }
{
    if found != NEW {
        return None;
    }
    let values = values_of(n, holds);
    Some(Sum {
        ty: COMMAND,
        detail: values,
        parts: 1,
        first: values as u32,
        second: 1,
    })
}

// The row of a record whose last part has type last, in the order in which document 001 defines the plays. Its kind is
// tested too: the weight goes by it, and a record by itself does not say that it is that of the rule.
fn sum_row(t: &[u16], n: Numbers, r: Record, last: u8) -> Option<Sum>
    requires { r.place < 4096 }
    ensures { SumRow t.now n r last result }
{
    let rule = r.rule;
    match rule {
        Rule::Skip => None,
        Rule::Diverge => None,
        Rule::Truth => None,
        Rule::Number => None,
        Rule::Operate => operate_row(t, r),
        Rule::Sequence => plain_row(r.kind, SEQUENCE, last, 2),
        Rule::While => plain_row(r.kind, WHILE, COMMAND, 2),
        Rule::If => plain_row(r.kind, IF, last, 3),
        Rule::Use => None,
        Rule::Fetch => plain_row(r.kind, FETCH, held_type(last), 1),
        Rule::Assign => assign_row(t, r),
        Rule::New => new_row(n, r.kind, r.b),
        Rule::Procedure => None,
    }
}

// Writes and weighs a record with parts whose weight is the sum of theirs: its type; nothing, with the table as it was,
// where it is no such record.
pub(crate) fn close_sum(t: &mut [u16], n: Numbers, r: Record, last: u8, next: usize) -> Option<u8>
    requires { (r.place < 4096) × (next < 65536) }
    ensures other { IfNone result (t.new ≡ t.old) }
    ensures closed { IfSome result (λ ty. (s : List ℕ) (around : ℕ) → (read ty next ≡ closed_answer s r (read last next))
        × (t.new ≡ closed_table n s around r (read last next) t.old)) }
{
    let row = sum_row(t, n, r, last)?;
    write_typed(t, n, r.place, r.kind as u16, row.ty, row.detail, next);
    if weigh_parts(t, r.place, row.parts, row.first, row.second) {
        return Some(row.ty);
    }
    weigh_record(t, r.place, 0);
    Some(row.ty)
}
