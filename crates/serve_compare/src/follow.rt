// The service follow.
ghost use Rattle.serve_compare.specs.Promise.{FollowPromise};

use crate::Following;
use crate::causes::{both_cause, play_cause};
use dfa::words::clear;
use dfa_live::mark_live;
use play_records::play::count_moves;
use play_words::walk::longest;
use serve_conditions::lent::words_asked;
use sheet_reader::reading::numbers_of;
use sheet_records::refusal::{Cause, Reason, Sheets, of_sheet};
use states_build::build::one_from_rows;
use term_expand::expand::TERM_WORDS;
use term_load::load::load;

// How many moves at the start of the play begin some complete play of the sheet, and whether the whole play is
// complete.
pub fn follow(sheet: &[u8], play: &[u8], words: &mut [u32]) -> Result<Following, Cause>
    ensures { FollowPromise sheet.now play.now words.old result
        words.new }
{
    let mut t = [0u16; TERM_WORDS];
    let x = load(sheet, &mut t);
    // `let .. else`, not `?`: the form of document 01 in which the answer is taken apart and the refusal handed on.
    let Ok(loaded) = x else {
        return Err(of_sheet(x.err().unwrap(), Sheets::Old));
    };
    let all = loaded.size as usize;
    let n = numbers_of(sheet);
    if words.len() < words_asked(n, all) {
        return Err(both_cause(Reason::TooFewWords));
    }
    let parsed = count_moves(play);
    let Ok(total) = parsed else {
        return Err(play_cause(parsed.err().unwrap()));
    };
    one_from_rows(&t, n, loaded.row, all, words);
    mark_live(words, all + 1, all - 1);
    let reach = longest(words, all + 1, play, total);
    clear(words);
    let count = reach.count;
    let last = reach.last;
    Ok(Following {
        count,
        complete: last == all - 1,
    })
}
