// The standing of an id: free, retired, declared, or held by an enclosing binder.
ghost use Rattle.std.specs.Prelude.{◌≡◌, ◌+◌, ◌≤◌, ◌<◌};
ghost use Rattle.sheet_records.specs.Standing.{declared_standing, variable_standing, parameter_standing};
ghost use Rattle.sheet_records.specs.Standing.{procedure_standing, standing_of, is_named, is_held, result_of, count_of, argument_of};

use crate::kind::{ARGUMENT_TYPES, COUNT, PARAMETER_TYPES, RESULT};
use crate::read::get_or;

pub const FREE: u32 = 0;

pub const RETIRED: u32 = 1;

// The first standings of declared ids, of variables, of parameters and of procedures.
const FIRST_DECLARED: u32 = 256;

pub const FIRST_VARIABLE: u32 = 12288;

const FIRST_PARAMETER: u32 = 16384;

const FIRST_PROCEDURE: u32 = 32768;

// By what the place of a name's record, the number of a variable or a parameter and the place of a procedure are
// multiplied in a standing.
const DECLARED_STEP: u32 = 2;

const VARIABLE_STEP: u32 = 4;

const PARAMETER_STEP: u32 = 8;

const PROCEDURE_STEP: u32 = 128;

// The type of a variable is its data and this.
pub const VARIABLE_TYPE: u8 = 2;

// What a standing says: the place of the record that declares the id, and 1 where the name asks once; of a binder its
// number, and the data of a variable, the type of a parameter, the place of a procedure's record.
#[derive(Drop)]
pub enum Standing {
    Free,
    Retired,
    Declared { place: u32, once: u8 },
    Variable { number: u16, holds: u8 },
    Parameter { number: u16, ty: u8 },
    Procedure { number: u16, place: u32 },
}

// Declared by the record at a place; once is 1 where the name asks once, else 0.
#[tactic(auto, unfolding(crate::specs::Standing::declared_standing))]
pub fn declared_standing(place: usize, once: u8) -> u32
    requires { place ≤ 4096 }
    ensures { result ≡ declared_standing place once }
{
    FIRST_DECLARED + DECLARED_STEP * (place as u32) + once as u32
}

// The variable of a new that `number` binders enclose; it holds truths, 1, or numbers, 2.
#[tactic(auto, unfolding(crate::specs::Standing::variable_standing))]
pub fn variable_standing(number: u8, holds: u32) -> u32
    requires { holds ≤ 2 }
    ensures { result ≡ variable_standing number holds }
{
    FIRST_VARIABLE + VARIABLE_STEP * (number as u32) + holds
}

// The parameter with a number and a type.
#[tactic(auto, unfolding(crate::specs::Standing::parameter_standing))]
pub fn parameter_standing(number: u8, ty: u8) -> u32
    ensures { result ≡ parameter_standing number ty }
{
    FIRST_PARAMETER + PARAMETER_STEP * (number as u32) + ty as u32
}

// The procedure at a place that `number` binders enclose.
#[tactic(auto, unfolding(crate::specs::Standing::procedure_standing))]
pub fn procedure_standing(number: u8, place: usize) -> u32
    requires { place < 65536 }
    ensures { result ≡ procedure_standing number place }
{
    FIRST_PROCEDURE + PROCEDURE_STEP * (place as u32) + number as u32
}

// What a standing says.
impl From<u32> for Standing {
    ghost from_gives = { λ c x. x ≡ standing_of c };

    #[tactic(auto, unfolding(crate::specs::Standing::standing_of))]
    fn from(c: u32) -> Standing {
        if c == FREE {
            return Standing::Free;
        }
        if c == RETIRED {
            return Standing::Retired;
        }
        if c < FIRST_DECLARED {
            return Standing::Declared { place: 0, once: 0 };
        }
        if c < FIRST_VARIABLE {
            let rest = c - FIRST_DECLARED;
            return Standing::Declared {
                place: rest / DECLARED_STEP,
                once: (rest % DECLARED_STEP) as u8,
            };
        }
        if c < FIRST_PARAMETER {
            let rest = c - FIRST_VARIABLE;
            return Standing::Variable {
                number: (rest / VARIABLE_STEP) as u16,
                holds: (rest % VARIABLE_STEP) as u8,
            };
        }
        if c < FIRST_PROCEDURE {
            let rest = c - FIRST_PARAMETER;
            return Standing::Parameter {
                number: (rest / PARAMETER_STEP) as u16,
                ty: (rest % PARAMETER_STEP) as u8,
            };
        }
        let rest = c - FIRST_PROCEDURE;
        Standing::Procedure {
            number: (rest % PROCEDURE_STEP) as u16,
            place: rest / PROCEDURE_STEP,
        }
    }
}

// Whether a name record holds the id whose standing is `c`: no binder may take it.
#[tactic(auto, unfolding(crate::specs::Standing::is_named))]
pub fn is_named(c: u32) -> bool
    ensures { result ≡ is_named (standing_of c) }
{
    match Standing::from(c) {
        Standing::Free => false,
        Standing::Retired => true,
        Standing::Declared { place: _, once: _ } => true,
        Standing::Variable {
            number: _,
            holds: _,
        } => false,
        Standing::Parameter { number: _, ty: _ } => false,
        Standing::Procedure {
            number: _,
            place: _,
        } => false,
    }
}

// Whether an enclosing binder holds the id whose standing is `c`: a variable, a parameter or a procedure.
pub fn is_held(c: u32) -> bool
    ensures { result ≡ is_held (standing_of c) }
{
    FIRST_VARIABLE <= c
}

// The type of a use of an id whose standing is `c`.
#[tactic(auto, unfolding(crate::specs::Standing::result_of))]
pub fn result_of(s: &[u8], c: u32) -> u8
    ensures { result ≡ result_of s.now (standing_of c) }
{
    match Standing::from(c) {
        Standing::Free => 0,
        Standing::Retired => 0,
        Standing::Declared { place, once: _ } => get_or(s, place as usize + RESULT, 0),
        Standing::Variable { number: _, holds } => VARIABLE_TYPE + holds,
        Standing::Parameter { number: _, ty } => ty,
        Standing::Procedure { number: _, place } => get_or(s, place as usize + RESULT, 0),
    }
}

// How many arguments it has.
#[tactic(auto, unfolding(crate::specs::Standing::count_of))]
pub fn count_of(s: &[u8], c: u32) -> u8
    ensures { result ≡ count_of s.now (standing_of c) }
{
    match Standing::from(c) {
        Standing::Free => 0,
        Standing::Retired => 0,
        Standing::Declared { place, once: _ } => get_or(s, place as usize + COUNT, 0),
        Standing::Variable {
            number: _,
            holds: _,
        } => 0,
        Standing::Parameter { number: _, ty: _ } => 0,
        Standing::Procedure { number: _, place } => get_or(s, place as usize + COUNT, 0),
    }
}

// The type of its argument j: one byte for each in a name's record, an id and a type for each in a procedure's.
#[tactic(auto, unfolding(crate::specs::Standing::argument_of))]
pub fn argument_of(s: &[u8], c: u32, j: u8) -> u8
    ensures { result ≡ argument_of s.now (standing_of c) j }
{
    match Standing::from(c) {
        Standing::Free => 0,
        Standing::Retired => 0,
        Standing::Declared { place, once: _ } => get_or(
            s,
            place as usize + ARGUMENT_TYPES + j as usize,
            0,
        ),
        Standing::Variable {
            number: _,
            holds: _,
        } => 0,
        Standing::Parameter { number: _, ty: _ } => 0,
        Standing::Procedure { number: _, place } => get_or(
            s,
            place as usize + PARAMETER_TYPES + 2 * (j as usize),
            0,
        ),
    }
}
