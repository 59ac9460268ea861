// Silent states of an automaton in lent words: edges led past them.
#![tactic(auto)]

ghost use Rattle.std.specs.Prelude.{◌*◌};
ghost use Rattle.dfa.specs.Graph.{Graph, rest};
ghost use Rattle.dfa_silent.specs.Silent.{Silent, Settling};

use crate::paths::{begin, find_paths};
use crate::redirect::redirect;

mod paths; // paths.rt: where each state settles
mod redirect; // redirect.rt: the edges led there

// Every edge is led to where its target settles. Before, word p below n is 0 if the state p is not silent, else k + 1,
// where p goes silently to k. After, the words below 5 n may be anything.
pub fn settle(words: &mut [u32], n: usize)
    requires { Graph (rest (5 * n) words.old) n × Silent n words.old }
    ensures { Settling n words.old
        (rest (5 * n) words.old) (rest (5 * n) words.new) }
{
    begin(words, n);
    find_paths(words, n);
    redirect(words, n);
}
