// The services for callers in C and Rust. Each has its answer written as words (crate abi_words).
#![tactic(auto)]

ghost use Rattle.std.specs.Prelude.{◌≡◌};
ghost use Rattle.sheet_reader.specs.Reader.{read_sheet};
ghost use Rattle.sheet_judge.specs.Check.{checked_of};
ghost use Rattle.serve_profile.specs.Profile.{profiled_of};
ghost use Rattle.abi_words.specs.Words.{check_words, answered, status};
ghost use Rattle.abi.specs.Returned.{FollowReturned, CompareReturned, LookReturned};
ghost use Rattle.abi.specs.Returned.{RenumberReturned, CardReturned};

use abi_words::card::answer_card;
use abi_words::check::answer_check;
use abi_words::compare::answer_compare;
use abi_words::follow::answer_follow;
use abi_words::look::answer_look;
use abi_words::renumber::answer_renumber;
use abi_words::write::{ANSWER_WORDS, NO_ROOM};
use serve_card::card::card;
use serve_compare::compare::compare;
use serve_compare::follow::follow;
use serve_compare::look::look;
use serve_profile::profile::profile;
use serve_renumber::renumber::renumber;
use sheet_judge::check::check;

// The service check: the answer in the first eleven words of out, and 1; or 0, with out as it was, where it has fewer.
#[unsafe(no_mangle)]
pub extern "C" fn negyvosal_check(sheet: &[u8], out: &mut [u32]) -> u32
    ensures returned { result ≡ status out.old }
    ensures written { out.new
        ≡ answered (check_words (checked_of (read_sheet sheet.now))) out.old }
{
    let r = check(sheet);
    answer_check(out, r)
}

// The service profile: the answer in the first eleven words of out, and 1; or 0, with out as it was, where it has
// fewer.
#[unsafe(no_mangle)]
pub extern "C" fn negyvosal_profile(sheet: &[u8], out: &mut [u32]) -> u32
    ensures returned { result ≡ status out.old }
    ensures written { out.new
        ≡ answered (check_words (profiled_of (read_sheet sheet.now))) out.old }
{
    let p = profile(sheet);
    answer_check(out, p)
}

// The service follow: the answer in the first eleven words of out, and 1; or 0, and nothing is changed, where out has
// fewer.
#[unsafe(no_mangle)]
pub extern "C" fn negyvosal_follow(
    sheet: &[u8],
    play: &[u8],
    words: &mut [u32],
    out: &mut [u32],
) -> u32
    ensures { FollowReturned sheet.now play.now words.old out.old result
        words.new out.new }
{
    if out.len() < ANSWER_WORDS {
        return NO_ROOM;
    }
    let r = follow(sheet, play, words);
    answer_follow(out, r)
}

// The service compare: likewise.
#[unsafe(no_mangle)]
pub extern "C" fn negyvosal_compare(
    old: &[u8],
    new: &[u8],
    words: &mut [u32],
    space: &mut [u8],
    out: &mut [u32],
) -> u32
    ensures { CompareReturned old.now new.now words.old space.old
        out.old result words.new space.new out.new }
{
    if out.len() < ANSWER_WORDS {
        return NO_ROOM;
    }
    let r = compare(old, new, words, space);
    answer_compare(out, r)
}

// The service look: likewise.
#[unsafe(no_mangle)]
pub extern "C" fn negyvosal_look(
    old: &[u8],
    new: &[u8],
    limit: u64,
    words: &mut [u32],
    space: &mut [u8],
    out: &mut [u32],
) -> u32
    ensures { LookReturned old.now new.now limit words.old space.old
        out.old result words.new space.new out.new }
{
    if out.len() < ANSWER_WORDS {
        return NO_ROOM;
    }
    let most = limit as usize;
    let r = look(old, new, most, words, space);
    answer_look(out, r)
}

// The service renumber: likewise.
#[unsafe(no_mangle)]
pub extern "C" fn negyvosal_renumber(
    sheet: &[u8],
    output: &mut [u8],
    list: &mut [u8],
    out: &mut [u32],
) -> u32
    ensures { RenumberReturned sheet.now output.old list.old out.old
        result output.new list.new out.new }
{
    if out.len() < ANSWER_WORDS {
        return NO_ROOM;
    }
    let r = renumber(sheet, output, list);
    answer_renumber(out, r)
}

// The service card: likewise.
#[unsafe(no_mangle)]
pub extern "C" fn negyvosal_card(
    sheet: &[u8],
    words: &mut [u32],
    space: &mut [u8],
    out: &mut [u32],
) -> u32
    ensures { CardReturned sheet.now words.old space.old out.old result
        words.new space.new out.new }
{
    if out.len() < ANSWER_WORDS {
        return NO_ROOM;
    }
    let r = card(sheet, words, space);
    answer_card(out, r)
}
