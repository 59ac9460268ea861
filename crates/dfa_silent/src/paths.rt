// The path of a state is its silent steps. Word n + p says where the path of the state p ends: NONE while that is not
// found, else one more than the state at which p settles. For a loop that is the dead state, n - 1, and the word is n.
ghost use Rattle.std.specs.Prelude.{◌≢◌, ◌≡◌, ◌+◌, ◌<◌, ◌^◌, length, get_or};
ghost use Rattle.dfa_silent.specs.Silent.{stepped};
ghost use Rattle.dfa_silent.specs.inner.Settle.{Steps, own, Begun, Replacing, Paths, PathFound, Through};

use dfa::words::{at, put};

// The word of a state that is not silent. No Option: the words are lent.
const NOT_SILENT: usize = 0;

// The end is not found. No Option: it stands in a lent word.
const NONE: usize = 0;

// One silent step from p; a state that is not silent stays.
fn silent_step(words: &[u32], p: usize) -> usize
    requires { p < length words.now }
    ensures { result ≡ stepped words.now p }
{
    let k = at(words, p);
    if k == NOT_SILENT {
        return p;
    }
    k - 1
}

// The end of the path of p, as far as p alone tells: a state that is not silent settles where it is.
fn own_path(words: &[u32], p: usize) -> usize
    requires { (p < length words.now) × (p < 2 ^ 32) }
    ensures { result ≡ own words.now p }
{
    if at(words, p) == NOT_SILENT {
        return p + 1;
    }
    NONE
}

// Every state gets the end that it alone tells.
pub(crate) fn begin(words: &mut [u32], n: usize)
    requires { Steps n words.old }
    ensures { Begun n words.old words.new n }
{
    for p in 0..n {
        let end = own_path(words, p);
        put(words, n + p, end);
    }
}

// On the path from p, the states that have the end old get the end new, up to the first that has another: that state.
fn replace(words: &mut [u32], n: usize, p: usize, old: usize, new: usize) -> usize
    requires { Steps n words.old × ((p < n) × ((old ≢ new) × (new < 2 ^ 32))) }
    ensures { Replacing n p old new result words.old words.new
        × (get_or words.new (n + result) 0 ≢ old) }
{
    let mut x = p;
    while at(words, n + x) == old {
        put(words, n + x, new);
        x = silent_step(words, x);
    }
    x
}

// The end of the path of p is found. The states on it that have none get the dead state, which is right for a loop;
// where they reach a state that has another end, they get that one.
fn find_path(words: &mut [u32], n: usize, p: usize)
    requires { Paths n words.old × (p < n) }
    ensures { PathFound n p words.old words.new }
{
    let dead = n;
    let x = replace(words, n, p, NONE, dead);
    let end = at(words, n + x);
    if end == dead {
        return;
    }
    replace(words, n, p, dead, end);
}

// The same where it may be known already, as it is of a state on the path of one before.
fn find_once(words: &mut [u32], n: usize, p: usize)
    requires { Paths n words.old × (p < n) }
    ensures { PathFound n p words.old words.new }
{
    if at(words, n + p) != NONE {
        return;
    }
    find_path(words, n, p);
}

// The ends of all paths are found.
pub(crate) fn find_paths(words: &mut [u32], n: usize)
    requires { Paths n words.old }
    ensures { Through n words.old words.new n }
{
    for p in 0..n {
        find_once(words, n, p);
    }
}
