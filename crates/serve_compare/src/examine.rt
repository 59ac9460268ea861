// What compare and look share: two sheets are loaded, their automata built, and their plays compared up to a number of moves.
ghost use Rattle.std.specs.Prelude.{◌+◌};
ghost use Rattle.serve_compare.specs.inner.Deciding.{Deciding, Verdicts, ExaminePromise};

use crate::Examined;
use crate::causes::both_cause;
use dfa::words::clear;
use dfa_difference::Task;
use dfa_difference::search::first_difference;
use play_words::Difference;
use play_words::show::show;
use serve_conditions::heading::alike;
use serve_conditions::pair::pair_reason;
use sheet_reader::reading::numbers_of;
use sheet_records::refusal::{Cause, Sheets, of_sheet};
use states_build::build::two_from_rows;
use term_expand::expand::TERM_WORDS;
use term_load::load::load;

// Compares the sheets of sizes `all` and `more` whose automata stand in the words, by their plays of at most `most` moves.
fn decide(
    words: &mut [u32],
    space: &mut [u8],
    all: usize,
    more: usize,
    most: usize,
) -> Option<Difference>
    requires { Deciding words.old space.old all more }
    ensures { (D : Deciding words.old space.old all more)
        → Verdicts D.numbers D.type D.term D.other_term most space.old result
        space.new }
{
    let n = all + more + 1;
    let t = Task {
        n,
        p: 0,
        q: all,
        f: all - 1,
        g: all + more - 1,
        most,
    };
    let k = first_difference(words, t)?;
    show(words, space, n, k, all - 1)
}

// Examines two sheets by their plays of at most `most` moves: the first play that only one of them has, and which; or that
// there is none; and the names that both use.
pub(crate) fn examine(
    old: &[u8],
    new: &[u8],
    most: usize,
    words: &mut [u32],
    space: &mut [u8],
) -> Result<Examined, Cause>
    ensures { ExaminePromise old.now new.now most words.old space.old
        result words.new space.new }
{
    let mut t = [0u16; TERM_WORDS];
    let x = load(old, &mut t);
    // `let .. else`, not `?`: the form of document 01 in which the answer is taken apart and the refusal handed on.
    let Ok(first) = x else {
        return Err(of_sheet(x.err().unwrap(), Sheets::Old));
    };
    let mut u = [0u16; TERM_WORDS];
    let y = load(new, &mut u);
    let Ok(second) = y else {
        return Err(of_sheet(y.err().unwrap(), Sheets::New));
    };
    let all = first.size as usize;
    let more = second.size as usize;
    let matching = alike(old, new, first.root, second.root, first.ty, second.ty);
    let n = numbers_of(old);
    if let Some(reason) = pair_reason(matching, n, words.len(), space.len(), all + more) {
        return Err(both_cause(reason));
    }
    two_from_rows(&t, &u, n, first.row, second.row, all, more, words);
    let found = decide(words, space, all, more, most);
    clear(words);
    Ok(Examined {
        found,
        whole: all + more - 1,
        old: first.uses,
        new: second.uses,
    })
}
