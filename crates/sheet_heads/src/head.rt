// The kind byte and the body of a part of a term: every judgement of its bytes.
ghost use Rattle.std.specs.Prelude.{◌≡◌, List, ℕ, ◌+◌, ◌≤◌, ◌<◌, length, Err};
ghost use Rattle.language.specs.declared.Numbers.{Numbers};
ghost use Rattle.sheet_records.specs.declared.edition.Edition.{Edition};
ghost use Rattle.sheet_heads.specs.Head.{byte_of, with_body, limited, constant, used, use_of, data_byte, new_of, body_of};
ghost use Rattle.sheet_heads.specs.Head.{procedure_head, blank, head_of_shape, head_of};
ghost use Rattle.sheet_heads.specs.Bare.{bare};
ghost use Rattle.sheet_records.specs.Refusal.{refusal, too_deep};

use language::Numbers;
use sheet_judgements::judgement::{is_hiding, judge_procedure};
use sheet_records::edition::Edition;
use sheet_records::kind::{COUNT, ID, Rule, Shape, shape_of};
use sheet_records::read::{get_or, standing_of};
use sheet_records::refusal::{Reason, Refusal, refuse};
use sheet_records::standing::{FREE, RETIRED, count_of, is_named};

// A record of a part: its place and kind, the rule and the number of parts that the kind gives, its body and the place
// after it. Of a use, `a` is the id, `b` its standing, and the parts are its arguments; of a new, `a` is the id and `b`
// the data; of a procedure, `a` is the id and `b` the number of its parameters; of any other, `a` is the one byte of
// the body, if it has one.
#[derive(Clone, Copy)]
pub struct Record {
    pub place: usize,
    pub kind: u8,
    pub rule: Rule,
    pub parts: u8,
    pub a: u8,
    pub b: u32,
    pub next: usize,
}

// Where the ranges of bytes end: types, truths, operators, ids, any bytes, the data of a new.
const TYPES: u16 = sheet_records::limits::TYPES as u16;

const TRUTHS: u16 = sheet_records::limits::TRUTHS as u16;

const OPERATORS: u16 = sheet_records::limits::OPERATORS as u16;

const IDS: u16 = sheet_records::limits::IDS as u16;

const BYTES: u16 = sheet_records::limits::BYTES as u16;

const DATA_TYPES: u16 = sheet_records::limits::DATA_TYPES as u16;

// The byte at `at`, which must be below `limit`.
#[tactic(auto, unfolding(crate::specs::Head::byte_of))]
fn byte_below(s: &[u8], at: usize, limit: u16) -> Result<u8, Refusal>
    ensures { result ≡ byte_of s.now at limit }
{
    if s.len() <= at {
        return Err(refuse(Reason::CutShort, s.len()));
    }
    let b = s[at];
    if limit <= b as u16 {
        return Err(refuse(Reason::OutOfRange, at));
    }
    Ok(b)
}

// The same record with other body bytes.
#[tactic(auto, unfolding(crate::specs::Head::with_body))]
fn with_body(r: Record, a: u8, b: u32) -> Record
    ensures { result ≡ with_body r a b }
{
    Record { a, b, ..r }
}

// A body of one byte, which must be below `limit`.
#[tactic(auto, unfolding(crate::specs::Head::limited, crate::specs::Head::on_byte))]
fn limited_body(s: &[u8], r: Record, limit: u16) -> Result<Record, Refusal>
    requires { r.place < 65536 }
    ensures { result ≡ limited s.now r limit }
{
    let byte = byte_below(s, r.place + 1, limit)?;
    Ok(with_body(r, byte, 0))
}

// A number from -Z to Z.
#[tactic(auto, unfolding(crate::specs::Head::constant, crate::specs::Head::on_byte))]
fn constant_body(s: &[u8], n: Numbers, r: Record) -> Result<Record, Refusal>
    requires { r.place < 65536 }
    ensures { result ≡ constant s.now n r }
{
    let at = r.place + 1;
    let byte = byte_below(s, at, BYTES)?;
    if language_codes::number::in_range(n, byte) {
        return Ok(with_body(r, byte, 0));
    }
    Err(refuse(Reason::OutOfRange, at))
}

// A use of an id whose standing is `c`, neither free nor retired.
#[tactic(auto, unfolding(crate::specs::Head::used))]
fn used_record(s: &[u8], r: Record, id: u8, c: u32) -> Record
    ensures { result ≡ used s.now r id c }
{
    let parts = count_of(s, c);
    Record {
        parts,
        a: id,
        b: c,
        ..r
    }
}

// A use: refused where the id is free or retired.
#[tactic(auto, unfolding(crate::specs::Head::use_of, crate::specs::Head::on_byte))]
fn use_body(s: &[u8], st: &[u32; 255], r: Record) -> Result<Record, Refusal>
    requires { r.place < 65536 }
    ensures { result ≡ use_of s.now st.now r }
{
    let at = r.place + 1;
    let id = byte_below(s, at, IDS)?;
    let c = standing_of(st, id);
    if c == FREE {
        return Err(refuse(Reason::IdUnknown, at));
    }
    if c == RETIRED {
        return Err(refuse(Reason::IdRetired, at));
    }
    Ok(used_record(s, r, id, c))
}

// The data of a new on an id.
#[tactic(auto, unfolding(crate::specs::Head::data_byte, crate::specs::Head::on_byte))]
fn data_body(s: &[u8], r: Record, id: u8) -> Result<Record, Refusal>
    requires { r.place < 65536 }
    ensures { result ≡ data_byte s.now r id }
{
    let data_at = r.place + 2;
    let data = byte_below(s, data_at, DATA_TYPES)?;
    if data == 0 {
        return Err(refuse(Reason::OutOfRange, data_at));
    }
    Ok(with_body(r, id, data as u32))
}

// A new: refused where the id is declared or retired, or held by an enclosing binder.
#[tactic(auto, unfolding(crate::specs::Head::new_of, crate::specs::Head::on_byte))]
fn new_body(edition: Edition, s: &[u8], st: &[u32; 255], r: Record) -> Result<Record, Refusal>
    requires { r.place < 65536 }
    ensures { result ≡ new_of edition s.now st.now r }
{
    let id_at = r.place + 1;
    let id = byte_below(s, id_at, IDS)?;
    let c = standing_of(st, id);
    if is_named(c) {
        return Err(refuse(Reason::IdTaken, id_at));
    }
    if is_hiding(edition, c) {
        return Err(refuse(Reason::IdEnclosed, id_at));
    }
    data_body(s, r, id)
}

// A procedure: its id and how many parameters it has.
#[tactic(auto, unfolding(crate::specs::Head::procedure_head, crate::specs::Head::on_judged))]
fn procedure_body(edition: Edition, s: &[u8], st: &[u32; 255], r: Record) -> Result<Record, Refusal>
    requires { r.place < 65536 }
    ensures { result ≡ procedure_head edition s.now st.now r }
{
    judge_procedure(edition, s, st, r.place)?;
    let id = get_or(s, r.place + ID, 0);
    let count = get_or(s, r.place + COUNT, 0);
    Ok(with_body(r, id, count as u32))
}

// The body of a record, by its rule.
#[tactic(auto, unfolding(crate::specs::Head::body_of))]
fn body_at(
    edition: Edition,
    rule: Rule,
    s: &[u8],
    st: &[u32; 255],
    n: Numbers,
    r: Record,
) -> Result<Record, Refusal>
    requires { r.place < 65536 }
    ensures { result ≡ body_of edition rule s.now st.now n r }
{
    match rule {
        Rule::Skip => Ok(r),
        Rule::Diverge => limited_body(s, r, TYPES),
        Rule::Truth => limited_body(s, r, TRUTHS),
        Rule::Number => constant_body(s, n, r),
        Rule::Use => use_body(s, st, r),
        Rule::Fetch => Ok(r),
        Rule::Operate => limited_body(s, r, OPERATORS),
        Rule::Assign => Ok(r),
        Rule::Sequence => Ok(r),
        Rule::If => Ok(r),
        Rule::While => Ok(r),
        Rule::New => new_body(edition, s, st, r),
        Rule::Procedure => procedure_body(edition, s, st, r),
    }
}

// A record of which only the kind byte has been read.
#[tactic(auto, unfolding(crate::specs::Head::blank))]
fn blank_record(at: usize, kind: u8, body: u8, parts: u8, rule: Rule) -> Record
    requires { at < 65536 }
    ensures { result ≡ blank at kind body parts rule }
{
    Record {
        place: at,
        kind,
        rule,
        parts,
        a: 0,
        b: 0,
        next: at + 1 + body as usize,
    }
}

// A record of which only the place, the rule and the body bytes are known: by these its parts are judged.
#[tactic(auto, unfolding(crate::specs::Bare::bare))]
pub fn bare_record(place: usize, rule: Rule, a: u8, b: u32) -> Record
    ensures { result ≡ bare place rule a b }
{
    Record {
        place,
        kind: 0,
        rule,
        parts: 0,
        a,
        b,
        next: 0,
    }
}

// Why a kind is refused where no depth is left: range comes before depth.
#[tactic(auto, unfolding(crate::specs::Head::head_of_shape))]
fn deep_reason(shape: Shape) -> Reason
    ensures { (at : ℕ) → Err (refusal result at)
        ≡ head_of_shape shape at (λ body parts rule. Err (refusal too_deep at)) }
{
    match shape {
        Shape::Unknown => Reason::OutOfRange,
        Shape::Declare { body: _, once: _ } => Reason::OutOfRange,
        Shape::Retire { body: _ } => Reason::OutOfRange,
        Shape::Part {
            body: _,
            parts: _,
            rule: _,
        } => Reason::TooDeep,
    }
}

// The refusal of the part at a place, where no depth is left.
#[tactic(auto, unfolding(crate::specs::Head::head_of))]
fn too_deep(s: &[u8], at: usize) -> Result<Record, Refusal>
    ensures { (ed : Edition) (st : List ℕ) (N : Numbers) → result ≡ head_of ed s.now st N 0 at }
{
    if s.len() <= at {
        return Err(refuse(Reason::CutShort, s.len()));
    }
    let shape = shape_of(s[at]);
    Err(refuse(deep_reason(shape), at))
}

// The record of the part at a place, with `left` levels of depth left. No depth is a case of its own, so that nothing is
// tested between the decision over the kind byte and the body.
#[tactic(auto, unfolding(crate::specs::Head::head_of, crate::specs::Head::head_of_shape, crate::specs::Head::blank))]
pub fn head_at(
    edition: Edition,
    s: &[u8],
    st: &[u32; 255],
    n: Numbers,
    left: u8,
    at: usize,
) -> Result<Record, Refusal>
    requires { length s.now ≤ 4096 }
    ensures { result ≡ head_of edition s.now st.now n left at }
{
    if left == 0 {
        return too_deep(s, at);
    }
    if s.len() <= at {
        return Err(refuse(Reason::CutShort, s.len()));
    }
    let kind = s[at];
    let shape = shape_of(kind);
    match shape {
        Shape::Unknown => Err(refuse(Reason::OutOfRange, at)),
        Shape::Declare { body: _, once: _ } => Err(refuse(Reason::OutOfRange, at)),
        Shape::Retire { body: _ } => Err(refuse(Reason::OutOfRange, at)),
        Shape::Part { body, parts, rule } => body_at(
            edition,
            rule,
            s,
            st,
            n,
            blank_record(at, kind, body, parts, rule),
        ),
    }
}
