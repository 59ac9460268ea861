// The service profile.
ghost use Rattle.std.specs.Prelude.{◌≡◌};
ghost use Rattle.sheet_reader.specs.Reader.{read_sheet};
ghost use Rattle.serve_profile.specs.Profile.{profiled_of};

use crate::offence::first_offence;
use sheet_judge::check::Checked;
use sheet_judge::judge::judge_sheet;
use sheet_records::edition::Edition;
use sheet_records::refusal::{Cause, Reason, Sheets, of_sheet, refuse};
use sheet_rows::row::TABLE;

// The service profile: what check answers; where that is no refusal, the refusal at the first record that offends.
pub fn profile(s: &[u8]) -> Result<Checked, Cause>
    ensures { result ≡ profiled_of (read_sheet s.now) }
{
    let mut t = [0u16; TABLE];
    let x = judge_sheet(Edition::Present, s, &mut t);
    // `let .. else`, not `?`: the form of document 01 in which the answer is taken apart and the refusal handed on.
    let Ok(judgement) = x else {
        return Err(of_sheet(x.err().unwrap(), Sheets::Old));
    };
    if let Some(place) = first_offence(s, &t, judgement.root) {
        return Err(of_sheet(refuse(Reason::NotQuiet, place), Sheets::Old));
    }
    Ok(Checked {
        ty: judgement.ty,
        size: judgement.size,
        uses: judgement.uses,
    })
}
