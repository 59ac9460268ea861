// The classes of types, and how many questions and answers a type has by its class and the number of values of its
// data.
ghost use Rattle.std.specs.Prelude.{◌≡◌, ◌<◌};
ghost use Rattle.sheet_rows.specs.Class.{questions_by, answers_by};

pub const COMMANDS: u32 = 0;

pub const EXPRESSIONS: u32 = 1;

pub const VARIABLES: u32 = 2;

// How many questions a type has.
pub fn questions_by(class: u32, values: u32) -> u32
    requires { values < 65536 }
    ensures { result ≡ questions_by class values }
{
    if class == VARIABLES {
        return 1 + values;
    }
    1
}

// How many answers these have in all.
pub fn answers_by(class: u32, values: u32) -> u32
    requires { values < 65536 }
    ensures { result ≡ answers_by class values }
{
    if class == COMMANDS {
        return 1;
    }
    if class == VARIABLES {
        return values + values;
    }
    values
}
