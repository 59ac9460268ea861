// What the search for the first difference of two states keeps in lent words.
// Of the work space below word 5 n, the words below n are the parents of the classes, and from word n + 4 k on stand the
// four words of entry k of the queue: two states, the entry from which it came, and the letter.
#![tactic(auto)]

pub mod classes; // classes.rt: the classes of states
pub mod word; // word.rt: the word of an entry

// The words of an entry, of which the first is its first state.
pub const ENTRY: usize = 4;

// Which of them is its second state.
pub const SECOND: usize = 1;

// Which is the entry from which it came.
pub const FROM: usize = 2;

// Which is the letter.
pub const LETTER: usize = 3;
