// The kinds of records: one decision over the kind byte.
ghost use Rattle.std.specs.Prelude.{◌≡◌, ◌<◌};
ghost use Rattle.sheet_records.specs.Kind.{shape_of, body_in, parts_in};

// The kinds of records.
const DECLARE: u8 = 1;

pub const RETIRE: u8 = 2;

const DECLARE_ONCE: u8 = 3;

pub const SKIP: u8 = 16;

const DIVERGE: u8 = 17;

pub const TRUTH: u8 = 18;

const NUMBER: u8 = 19;

pub const USE: u8 = 20;

pub const FETCH: u8 = 21;

pub const OPERATE: u8 = 22;

pub const ASSIGN: u8 = 23;

pub const SEQUENCE: u8 = 24;

pub const IF: u8 = 25;

pub const WHILE: u8 = 26;

pub const NEW: u8 = 27;

pub const PROCEDURE: u8 = 28;

// Where the bytes of a name's or a procedure's record stand: its id, its result type and the count of its arguments; of
// a name the types of these follow, of a procedure a pair for each, id and type.
pub const ID: usize = 1;

pub const RESULT: usize = 2;

pub const COUNT: usize = 3;

pub(crate) const ARGUMENT_TYPES: usize = 4;

pub const PARAMETER_IDS: usize = 4;

pub const PARAMETER_TYPES: usize = 5;

// What a part of a term is: how its body is judged and its parts are typed.
#[derive(Clone, Copy)]
pub enum Rule {
    Skip,
    Diverge,
    Truth,
    Number,
    Use,
    Fetch,
    Operate,
    Assign,
    Sequence,
    If,
    While,
    New,
    Procedure,
}

// The shape of a kind: the length of the body and, of a declaration, 1 where the name asks once, else 0; of a part of a
// term, the number of its parts and its rule.
#[derive(Drop)]
pub enum Shape {
    Part { body: u8, parts: u8, rule: Rule },
    Declare { body: u8, once: u8 },
    Retire { body: u8 },
    Unknown,
}

// The shape of a part of a term.
fn part(body: u8, parts: u8, rule: Rule) -> Shape
    ensures { result ≡ Shape.Part body parts rule }
{
    Shape::Part { body, parts, rule }
}

// The decision over the kind byte.
#[tactic(auto, unfolding(crate::specs::Kind::shape_of))]
pub fn shape_of(kind: u8) -> Shape
    ensures { result ≡ shape_of kind }
{
    match kind {
        0 | 4..=15 | 29..=255 => Shape::Unknown,
        DECLARE => Shape::Declare { body: 7, once: 0 },
        RETIRE => Shape::Retire { body: 1 },
        DECLARE_ONCE => Shape::Declare { body: 7, once: 1 },
        SKIP => part(0, 0, Rule::Skip),
        DIVERGE => part(1, 0, Rule::Diverge),
        TRUTH => part(1, 0, Rule::Truth),
        NUMBER => part(1, 0, Rule::Number),
        USE => part(1, 0, Rule::Use),
        FETCH => part(0, 1, Rule::Fetch),
        OPERATE => part(1, 2, Rule::Operate),
        ASSIGN => part(0, 2, Rule::Assign),
        SEQUENCE => part(0, 2, Rule::Sequence),
        IF => part(0, 3, Rule::If),
        WHILE => part(0, 2, Rule::While),
        NEW => part(2, 1, Rule::New),
        PROCEDURE => part(11, 2, Rule::Procedure),
    }
}

// The length of the body of a record.
#[tactic(auto, unfolding(crate::specs::Kind::body_in))]
pub fn body_of(kind: u8) -> usize
    ensures { (result ≡ body_in (shape_of kind)) × (result < 256) }
{
    match shape_of(kind) {
        Shape::Part {
            body,
            parts: _,
            rule: _,
        } => body as usize,
        Shape::Declare { body, once: _ } => body as usize,
        Shape::Retire { body } => body as usize,
        Shape::Unknown => 0,
    }
}

// How many parts a record has that is no use.
#[tactic(auto, unfolding(crate::specs::Kind::parts_in))]
pub fn parts_of(kind: u8) -> usize
    ensures { (result ≡ parts_in (shape_of kind)) × (result < 256) }
{
    match shape_of(kind) {
        Shape::Part {
            body: _,
            parts,
            rule: _,
        } => parts as usize,
        Shape::Declare { body: _, once: _ } => 0,
        Shape::Retire { body: _ } => 0,
        Shape::Unknown => 0,
    }
}
