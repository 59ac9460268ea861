// The service check.
ghost use Rattle.std.specs.Prelude.{◌≡◌};
ghost use Rattle.sheet_reader.specs.Reader.{read_sheet};
ghost use Rattle.sheet_judge.specs.Check.{checked_of};

use crate::judge::judge_sheet;
use crate::mark::Uses;
use sheet_records::edition::Edition;
use sheet_records::refusal::{Cause, Sheets, of_sheet};
use sheet_rows::row::TABLE;

// What check finds of a sheet that it accepts: its type, its size and which names it uses.
#[derive(Drop)]
pub struct Checked {
    pub ty: u8,
    pub size: u32,
    pub uses: Uses,
}

// The service check: the type and the size of a sheet and which names it uses, or why it is refused.
pub fn check(s: &[u8]) -> Result<Checked, Cause>
    ensures { result ≡ checked_of (read_sheet s.now) }
{
    let mut t = [0u16; TABLE];
    let x = judge_sheet(Edition::Present, s, &mut t);
    // `let .. else`, not `?`: the form of document 01 in which the answer is taken apart and the refusal handed on.
    let Ok(judgement) = x else {
        return Err(of_sheet(x.err().unwrap(), Sheets::Old));
    };
    Ok(Checked {
        ty: judgement.ty,
        size: judgement.size,
        uses: judgement.uses,
    })
}
