// The words of classes follow the places.
ghost use Rattle.std.specs.Prelude.{◌<◌, ℕ};
ghost use Rattle.dfa_classes.specs.Parted.{Parted};
ghost use Rattle.dfa_splitting.specs.inner.Renaming.{ToRename, RenamedOne, ToRenameAll, RenamedAll};

use dfa::words::put;
use dfa_classes::words::{from, member, to};

// The states at the places of class c have it as their class.
fn rename_one(words: &mut [u32], n: usize, c: usize)
    requires { ToRename n c words.old }
    ensures { (own : ℕ → ℕ) (count : ℕ) → Parted n words.old own count → c < count
        → RenamedOne n own c words.old words.new }
{
    let start = from(words, n, c);
    let end = to(words, n, c);
    for i in start..end {
        let p = member(words, n, i);
        put(words, p, c);
    }
}

// The same for the classes from `count` to k.
pub fn rename(words: &mut [u32], n: usize, count: usize, k: usize)
    requires { ToRenameAll n k words.old }
    ensures { (own : ℕ → ℕ) → Parted n words.old own k
        → RenamedAll n own count words.old words.new }
{
    for c in count..k {
        rename_one(words, n, c);
    }
}
