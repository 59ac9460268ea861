// The words in which the states of an automaton are sorted into classes; the edges in lists by their targets, and the
// states that go into one class. The automaton stands as in dfa, with at most 8,192 states; E is the end of its edges.
// Word p, below n, is the class of the state p. The members of each class stand together: word n + i is the state at
// place i, word 2 n + p the place of the state p, words 3 n + c and 4 n + c the first place of class c and their end.
// Behind the graph, from word g = 6 n + 1 + 2 E on: word g + t begins the list of the edges that lead to the state t;
// word g + n + c is how many members of class c are touched; from word g + 2 n on stand the touched classes, from word
// g + 3 n on a copy of the members of one class.
#![tactic(auto)]

// The words of states, classes and edges.
pub mod words;
// The edges in lists by their targets.
pub mod links;
// Two places exchanged.
pub mod places;
// The states that go into one class.
pub mod touch;
