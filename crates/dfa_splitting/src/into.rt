// By which letters states go into a class.
ghost use Rattle.std.specs.Prelude.{◌≡◌, true, ◌↔◌, List, ℕ};
ghost use Rattle.dfa.specs.Graph.{target, δ};
ghost use Rattle.dfa_smallest.specs.Classes.{SameInto};
ghost use Rattle.dfa_classes.specs.Places.{class_at};
ghost use Rattle.dfa_splitting.specs.inner.Into.{Entering, Skipping, FirstInto, Comparing};

use dfa::words::at;
use dfa_classes::words::{edge_letter, edge_target, first_edge};

// Whether edge e leads into the class s.
pub(crate) fn enters(words: &[u32], n: usize, s: usize, e: usize) -> bool
    requires { (G : List ℕ) × ((g : ℕ) × Entering G g n e words.now) }
    ensures { (G : List ℕ) (g : ℕ) → Entering G g n e words.now
        → (result ≡ true) ↔ (class_at words.now (target G n e) ≡ s) }
{
    at(words, edge_target(words, n, e)) == s
}

// The first of the edges from e to end that leads into the class s.
fn next_into(words: &[u32], n: usize, s: usize, e: usize, end: usize) -> Option<usize>
    requires { (G : List ℕ) × ((g : ℕ) × Skipping G g n s e end words.now) }
    ensures { (G : List ℕ) (g : ℕ) → Skipping G g n s e end words.now
        → FirstInto G n (class_at words.now) s e end result }
{
    for i in e..end {
        if enters(words, n, s, i) {
            return Some(i);
        }
    }
    None
}

// Whether the states p and q go into the class s by the same letters.
pub(crate) fn same_into(words: &[u32], n: usize, s: usize, p: usize, q: usize) -> bool
    requires { (G : List ℕ) × ((g : ℕ) × Comparing G g n s p q words.now) }
    ensures { (G : List ℕ) (g : ℕ) → Comparing G g n s p q words.now
        → (result ≡ true) ↔ SameInto (δ G n) (class_at words.now) s p q }
{
    let ie = first_edge(words, n, p + 1);
    let je = first_edge(words, n, q + 1);
    let mut i = next_into(words, n, s, first_edge(words, n, p), ie);
    let mut j = next_into(words, n, s, first_edge(words, n, q), je);
    while let Some(a) = i {
        let Some(b) = j else {
            return false;
        };
        if edge_letter(words, n, a) != edge_letter(words, n, b) {
            return false;
        }
        i = next_into(words, n, s, a + 1, ie);
        j = next_into(words, n, s, b + 1, je);
    }
    j.is_none()
}
