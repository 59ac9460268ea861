// The classes of the states of an automaton in lent words: two states are in one class exactly if they accept the same
// words. The words are those of crate dfa_classes.
#![tactic(auto)]

ghost use Rattle.std.specs.Prelude.{◌*◌};
ghost use Rattle.dfa.specs.Graph.{rest};
ghost use Rattle.dfa_sorting.specs.Sorted.{Sortable, Sorted};

use crate::refine::refine;
use crate::start::{first_classes, place_states};
use dfa_classes::links::{link_edges, zero};
use dfa_classes::words::first_edge;

// The first two classes.
mod start;
// Classes made finer until they are those of the automaton.
mod refine;

// The states are sorted into classes, where f alone accepts: how many classes there are. Two states are in one class
// exactly if they accept the same words.
pub fn sort_states(words: &mut [u32], n: usize, f: usize) -> usize
    requires { Sortable n f words.old }
    ensures { Sorted (rest (5 * n) words.old) n f result words.new }
{
    let g = 6 * n + 1 + 2 * first_edge(words, n, n);
    zero(words, g, 2 * n);
    link_edges(words, n, g);
    place_states(words, n);
    first_classes(words, n, f);
    refine(words, n, g)
}
