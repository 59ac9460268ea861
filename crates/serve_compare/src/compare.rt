// The service compare.
ghost use Rattle.serve_compare.specs.Promise.{ComparePromise};

use crate::examine::examine;
use crate::{Comparison, MOST_MOVES};
use sheet_records::refusal::Cause;

// Whether two sheets have the same complete plays; or the first play that only one of them has, and which; and the names
// that both use.
pub fn compare(
    old: &[u8],
    new: &[u8],
    words: &mut [u32],
    space: &mut [u8],
) -> Result<Comparison, Cause>
    ensures { ComparePromise old.now new.now words.old space.old result
        words.new space.new }
{
    let x = examine(old, new, MOST_MOVES, words, space)?;
    Ok(Comparison {
        found: x.found,
        old: x.old,
        new: x.new,
    })
}
