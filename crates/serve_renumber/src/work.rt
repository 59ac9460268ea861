// A sheet that is accepted, renumbered in a copy.
ghost use Rattle.std.specs.Prelude.{◌≡◌, ◌≤◌, length};
ghost use Rattle.serve_renumber.specs.Found.{Worked};

use crate::bytes::copy;
use crate::part::renumber_part;
use crate::renumber::LIST;
use crate::step::Step;
use crate::taken::{IDS, take_bound, take_names};
use sheet_records::limits::MOST_BYTES;

// How many levels a term may have.
const GREATEST_DEPTH: usize = sheet_records::limits::GREATEST_DEPTH as usize;

// Renumbers a sheet whose term begins at the root: the sheet written goes to the start of `bytes`, the changes to the
// start of `list`.
pub(crate) fn renumber_copy(
    s: &[u8],
    root: usize,
    bytes: &mut [u8; MOST_BYTES],
    list: &mut [u8; LIST],
) -> Result<Step, usize>
    requires { (root ≤ 4096) × (length s.now ≤ 4096) × (length bytes.old ≡ 4096) }
    ensures { Worked s.now root bytes.old list.old result bytes.new
        list.new }
{
    let mut taken = [0u8; IDS];
    let mut scope = [0u16; IDS];
    take_names(s, root, &mut taken, &mut scope);
    take_bound(s, root, &mut taken);
    copy(s, bytes, s.len());
    renumber_part(s, &scope, bytes, list, &mut taken, GREATEST_DEPTH, root, 0)
}
