// The automata of sheets in the working words, ready to be walked and compared.
ghost use Rattle.std.specs.Prelude.{◌+◌};
ghost use Rattle.states_positions.specs.Row.{Long};
ghost use Rattle.states_step.specs.walk.Shows.{Words};
ghost use Rattle.states_build.specs.inner.Built.{OneReady, OneBuilt, TwoReady, TwoBuilt};

use dfa_silent::settle;
use language::Numbers;
use states_path::Site;
use states_path::levels::PATH_WORDS;
use states_words::fill::{close, fill};
use term_expand::expand::TERM_WORDS;

// That the rows are words of 16 bits. A slice says so of its words where one is read, an array does not, and nothing is
// done with the word that is read.
fn shorts(t: &[u16]) -> u16
    requires { Long t.now }
    ensures { Words t.now }
{
    t[0]
}

// The automaton of a sheet of size `all`, with one state more, the dead one.
fn build_one(t: &[u16; TERM_WORDS], n: Numbers, root: usize, all: usize, words: &mut [u32])
    requires words { Words t.now }
    requires one_ready { OneReady n t.now root all words.old }
    ensures { (R : OneReady n t.now root all words.old)
        → OneBuilt n R.type R.term (all + 1) words.new }
{
    let states = all + 1;
    let s = Site {
        root,
        n: states,
        o: 0,
    };
    let mut path = [0u32; PATH_WORDS];
    let e = fill(t, n, s, words, &mut path, 0);
    close(words, states, e);
    settle(words, states);
}

// The automata of two sheets of sizes `all` and `more`, one after the other, and the dead state.
fn build_two(
    t: &[u16; TERM_WORDS],
    u: &[u16; TERM_WORDS],
    n: Numbers,
    root: usize,
    other: usize,
    all: usize,
    more: usize,
    words: &mut [u32],
)
    requires words { Words t.now × Words u.now }
    requires two_ready { TwoReady n t.now u.now root other all more words.old }
    ensures { (R : TwoReady n t.now u.now root other all more words.old)
        → TwoBuilt n R.type R.term R.other_term (all + more + 1) words.new }
{
    let states = all + more + 1;
    let s = Site {
        root,
        n: states,
        o: 0,
    };
    let mut path = [0u32; PATH_WORDS];
    let e = fill(t, n, s, words, &mut path, 0);
    let s2 = Site {
        root: other,
        n: states,
        o: all,
    };
    let e2 = fill(u, n, s2, words, &mut path, e);
    close(words, states, e2);
    settle(words, states);
}

// The automaton of a sheet, of the rows of its term.
pub fn one_from_rows(t: &[u16; TERM_WORDS], n: Numbers, row: usize, all: usize, words: &mut [u32])
    requires { OneReady n t.now row all words.old }
    ensures { (R : OneReady n t.now row all words.old)
        → OneBuilt n R.type R.term (all + 1) words.new }
{
    shorts(t);
    build_one(t, n, row, all, words);
}

// The automata of two sheets, of the rows of their terms.
pub fn two_from_rows(
    t: &[u16; TERM_WORDS],
    u: &[u16; TERM_WORDS],
    n: Numbers,
    row: usize,
    other: usize,
    all: usize,
    more: usize,
    words: &mut [u32],
)
    requires { TwoReady n t.now u.now row other all more words.old }
    ensures { (R : TwoReady n t.now u.now row other all more words.old)
        → TwoBuilt n R.type R.term R.other_term (all + more + 1) words.new }
{
    shorts(t);
    shorts(u);
    build_two(t, u, n, row, other, all, more, words);
}
