// The scopes inside a record.
ghost use Rattle.std.specs.Prelude.{◌≡◌, ◌+◌, ◌≤◌, ◌<◌, set};
ghost use Rattle.sheet_parts.specs.Scope.{opens, entered, passed, usable};

use sheet_heads::head::Record;
use sheet_records::kind::{PARAMETER_IDS, PARAMETER_TYPES, Rule};
use sheet_records::read::get_or;
use sheet_records::standing::{parameter_standing, procedure_standing, variable_standing};

// Which scopes a record opens: none, that of a new's block, or those of a procedure's two terms.
#[derive(Drop)]
pub enum Opens {
    Nothing,
    Block,
    Routine,
}

// Which scopes the records with a rule open.
#[tactic(auto, unfolding(crate::specs::Scope::opens))]
pub fn opens_of(rule: Rule) -> Opens
    ensures { result ≡ opens rule }
{
    match rule {
        Rule::Skip => Opens::Nothing,
        Rule::Diverge => Opens::Nothing,
        Rule::Truth => Opens::Nothing,
        Rule::Number => Opens::Nothing,
        Rule::Use => Opens::Nothing,
        Rule::Fetch => Opens::Nothing,
        Rule::Operate => Opens::Nothing,
        Rule::Assign => Opens::Nothing,
        Rule::Sequence => Opens::Nothing,
        Rule::If => Opens::Nothing,
        Rule::While => Opens::Nothing,
        Rule::New => Opens::Block,
        Rule::Procedure => Opens::Routine,
    }
}

// The standings with another one for an id.
pub fn with_standing(st: [u32; 255], id: u8, standing: u32) -> [u32; 255]
    ensures { result ≡ set st id standing }
{
    if id < 255 {
        let mut inner = st;
        inner[id as usize] = standing;
        return inner;
    }
    st
}

// Stores the standing of an id; 255 has none.
fn put_standing(st: &mut [u32], id: u8, standing: u32)
    ensures { st.new ≡ set st.old id standing }
{
    let i = id as usize;
    if i < st.len() {
        st[i] = standing;
    }
}

// Makes of the standings those inside a new that `number` binders enclose: its id is its variable's.
#[tactic(auto, unfolding(crate::specs::Scope::entered))]
pub fn enter(st: &mut [u32; 255], r: Record, number: u8)
    requires { r.b ≤ 2 }
    ensures { st.new ≡ entered st.old r number }
{
    put_standing(st, r.a, variable_standing(number, r.b));
}

// Makes of the standings those inside the first term of the procedure at a place that `number` binders enclose: the ids
// of its `count` parameters are theirs.
#[tactic(auto, unfolding(crate::specs::Scope::passed))]
pub fn enter_parameters(s: &[u8], place: usize, number: u8, count: u8, st: &mut [u32; 255])
    requires { (place < 65536) × (number + count ≤ 255) }
    ensures { st.new ≡ passed s.now place number count st.old }
{
    for j in 0..count {
        let id = get_or(s, place + PARAMETER_IDS + 2 * (j as usize), 0);
        let ty = get_or(s, place + PARAMETER_TYPES + 2 * (j as usize), 0);
        put_standing(st, id, parameter_standing(number + j, ty));
    }
}

// Makes of the standings those inside the second term of a procedure that `number` binders enclose: its id is its own.
#[tactic(auto, unfolding(crate::specs::Scope::usable))]
pub fn enter_procedure(st: &mut [u32; 255], r: Record, number: u8)
    requires { r.place < 65536 }
    ensures { st.new ≡ usable st.old r number }
{
    put_standing(st, r.a, procedure_standing(number, r.place));
}
