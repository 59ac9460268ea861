// Signs: numbers made of the letters by which states go into a class. States with other signs have other letters. A
// sign below MANY is that of one letter, and tells it; states with the same sign above mostly have the same letters.
ghost use Rattle.std.specs.Prelude.{true, List, ◌↔◌, ◌≡◌, ◌<◌, ℕ};
ghost use Rattle.dfa.specs.Graph.{δ};
ghost use Rattle.dfa_smallest.specs.Classes.{SameInto};
ghost use Rattle.dfa_classes.specs.Places.{class_at};
ghost use Rattle.dfa_splitting.specs.inner.Into.{Comparing};
ghost use Rattle.dfa_splitting.specs.inner.Signs.{mixed, sign_of, Signing};

use crate::into::{enters, same_into};
use dfa_classes::words::{edge_letter, first_edge};

// By what a sign is multiplied before a letter is put to it, and how many letters there are.
const FACTOR: usize = 10368889;

const LETTERS: usize = 134217728;

// The first sign of more letters than one, and how many of these there are.
const MANY: usize = 134217729;

const SIGNS: usize = 16777216;

// The sign v with the letter l put to it; that of no letter is 0.
fn mix(v: usize, l: usize) -> usize
    requires { v < 150994945 }
    ensures { (result ≡ mixed v l) × (result < 150994945) }
{
    if v == 0 {
        return l % LETTERS + 1;
    }
    MANY + (v * FACTOR + l % LETTERS + 1) % SIGNS
}

// The sign of the state p: the letters by which it goes into the class s, put one to the other.
pub(crate) fn sign(words: &[u32], n: usize, s: usize, p: usize) -> usize
    requires { (G : List ℕ) × ((g : ℕ) × ((cls : ℕ → ℕ) × Signing G g n p cls words.now)) }
    ensures { (result < 150994945) × ((G : List ℕ) (g : ℕ) (cls : ℕ → ℕ) → Signing G g n p cls words.now
        → result ≡ sign_of G n cls s p) }
{
    let end = first_edge(words, n, p + 1);
    let mut v = 0;
    for i in first_edge(words, n, p)..end {
        if enters(words, n, s, i) {
            v = mix(v, edge_letter(words, n, i));
        }
    }
    v
}

// Whether the states p and q, which have the sign v, go into the class s by the same letters.
pub(crate) fn alike(words: &[u32], n: usize, s: usize, v: usize, p: usize, q: usize) -> bool
    requires { (G : List ℕ) × ((g : ℕ) × Comparing G g n s p q words.now) }
    ensures { (G : List ℕ) (g : ℕ) → Comparing G g n s p q words.now
        → (v < 134217729 → SameInto (δ G n) (class_at words.now) s p q)
        → (result ≡ true) ↔ SameInto (δ G n) (class_at words.now) s p q }
{
    if v < MANY {
        return true;
    }
    same_into(words, n, s, p, q)
}
