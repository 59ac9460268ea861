// How the parts of a record are typed.
ghost use Rattle.std.specs.Prelude.{◌≡◌, true, false, ◌+◌, ◌<◌};
ghost use Rattle.sheet_parts.specs.Rule.{operand_type, result_type, accepts_part, part_type};

use language::operator::{AND, EQUAL};
use sheet_heads::head::Record;
use sheet_records::kind::{RESULT, Rule};
use sheet_records::read::get_or;
use sheet_records::standing::{argument_of, result_of};

// The types.
pub const COMMAND: u8 = 0;

pub const TRUTH: u8 = 1;

pub const NUMBER: u8 = 2;

pub const TRUTH_VARIABLE: u8 = 3;

const NUMBER_VARIABLE: u8 = 4;

// The type of an operator's operands: those below AND take numbers. Two rules of two definitions: number_below(op, AND)
// at the uses would be no plainer.
#[tactic(auto, unfolding(crate::specs::Rule::operand_type))]
fn operand_type(op: u8) -> u8
    ensures { result ≡ operand_type op }
{
    if op < AND { NUMBER } else { TRUTH }
}

// The type of its result: those below EQUAL give a number.
#[tactic(auto, unfolding(crate::specs::Rule::result_type))]
pub fn result_type(op: u8) -> u8
    ensures { result ≡ result_type op }
{
    if op < EQUAL { NUMBER } else { TRUTH }
}

// Whether part j of a record may have type ty, where the part before it has type prev.
#[tactic(auto, unfolding(crate::specs::Rule::accepts_part))]
pub fn accepts_part(rule: Rule, s: &[u8], r: Record, j: u8, prev: u8, ty: u8) -> bool
    requires { r.place < 65536 }
    ensures { result ≡ accepts_part rule s.now r j prev ty }
{
    match rule {
        Rule::Skip => false,
        Rule::Diverge => false,
        Rule::Truth => false,
        Rule::Number => false,
        Rule::Use => ty == argument_of(s, r.b, j),
        Rule::Fetch => TRUTH_VARIABLE <= ty,
        Rule::Operate => ty == operand_type(r.a),
        Rule::Assign => if j == 0 {
            TRUTH_VARIABLE <= ty
        } else {
            (ty as u16) + 2 == prev as u16
        },
        Rule::Sequence => if j == 0 { ty == COMMAND } else { true },
        Rule::If => {
            if j == 0 {
                return ty == TRUTH;
            }
            if j == 1 {
                return true;
            }
            ty == prev
        }
        Rule::While => if j == 0 { ty == TRUTH } else { ty == COMMAND },
        Rule::New => ty == COMMAND,
        Rule::Procedure => if j == 0 {
            ty == get_or(s, r.place + RESULT, 0)
        } else {
            true
        },
    }
}

// The type of a record whose last part has type last.
#[tactic(auto, unfolding(crate::specs::Rule::part_type))]
pub fn type_of(rule: Rule, s: &[u8], r: Record, last: u8) -> u8
    ensures { result ≡ part_type rule s.now r last }
{
    match rule {
        Rule::Skip => COMMAND,
        Rule::Diverge => r.a,
        Rule::Truth => TRUTH,
        Rule::Number => NUMBER,
        Rule::Use => result_of(s, r.b),
        Rule::Fetch => if last < 2 { 0 } else { last - 2 },
        Rule::Operate => result_type(r.a),
        Rule::Assign => COMMAND,
        Rule::Sequence => last,
        Rule::If => last,
        Rule::While => COMMAND,
        Rule::New => COMMAND,
        Rule::Procedure => last,
    }
}
