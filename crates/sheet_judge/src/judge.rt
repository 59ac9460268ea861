// A whole sheet judged: read, which weighs it, and held to the greatest size.
ghost use Rattle.sheet_reader.specs.table.Notes.{Blank};
ghost use Rattle.sheet_judge.specs.Judged.{JudgedBy};

use crate::mark::{Uses, uses_of};
use crate::size::size_of;
use sheet_reader::reading::{numbers_of, read_sheet};
use sheet_records::edition::Edition;
use sheet_records::limits::GREATEST_SIZE;
use sheet_records::refusal::{Reason, Refusal, refuse};
use sheet_rows::row::TABLE;
use weight_plans::term::weight_of;

// What judging a sheet gives: the place of its term, its type, its size and which names it uses.
#[derive(Drop)]
pub struct Judgement {
    pub root: usize,
    pub ty: u8,
    pub size: u32,
    pub uses: Uses,
}

// Judges a whole sheet by the rule of an edition, and leaves the rows of its parts in the blank table and their marks.
pub fn judge_sheet(edition: Edition, s: &[u8], t: &mut [u16; TABLE]) -> Result<Judgement, Refusal>
    requires { Blank t.old }
    ensures { JudgedBy edition s.now result t.new }
{
    let sheet = read_sheet(edition, s, t)?;
    let weight = weight_of(t);
    let size = size_of(numbers_of(s), sheet.ty, weight);
    if GREATEST_SIZE < size {
        return Err(refuse(Reason::TooLarge, 0));
    }
    let uses = uses_of(s, t);
    Ok(Judgement {
        root: sheet.root,
        ty: sheet.ty,
        size,
        uses,
    })
}
