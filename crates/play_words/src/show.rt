// The play of an entry of the search, written as records, and which sheet has it.
ghost use Rattle.std.specs.Prelude.{◌*◌, ◌≤◌, length, take};
ghost use Rattle.dfa_search.specs.Spelled.{Trail};
ghost use Rattle.play_words.specs.Shown.{Shown};

use crate::Difference;
use dfa_search::word::spell;
use play_records::play::write_play;
use sheet_records::refusal::Sheets;

// Writes the play of entry k: its number of moves, and which sheet has it. The old sheet has it where it ends at f.
pub fn show(words: &mut [u32], space: &mut [u8], n: usize, k: usize, f: usize) -> Option<Difference>
    requires { Trail n (take (5 * n) words.old) k × (32 * n ≤ length words.old) }
    ensures { Shown n k f words.old space.old result space.new }
{
    let last = words[n + 4 * k] as usize;
    let moves = spell(words, n, k);
    write_play(words, 5 * n, moves, space);
    let sheet = if last == f { Sheets::Old } else { Sheets::New };
    Some(Difference { sheet, moves })
}
