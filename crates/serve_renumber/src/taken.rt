// The ids that may not be given: those declared, retired or bound anywhere in the sheet.
ghost use Rattle.std.specs.Prelude.{◌≡◌, ◌+◌, ◌*◌, ◌≤◌, ◌<◌, min, length, get_or};
ghost use Rattle.sheet_written.specs.Renumber.{lowest};
ghost use Rattle.serve_renumber.specs.Work.{marked, took_parameters, took_ids, name_entry};
ghost use Rattle.serve_renumber.specs.Found.{Headed, Taken};

use crate::bytes::{byte, put, put_word};
use crate::scope::named_entry;
use sheet_records::kind::{COUNT, ID, NEW, PARAMETER_IDS, PROCEDURE, RETIRE, body_of};
use sheet_records::limits::{FIRST_RECORD, MOST_ARGUMENTS};
use sheet_records::read::get_or;
use weight_forms::set::least;

// The mark of an id that is taken.
pub(crate) const TAKEN: usize = 1;

// Ids are the numbers below this.
pub(crate) const IDS: usize = sheet_records::limits::IDS as usize;

// The lowest id that is not taken; 255 where no id is left.
pub(crate) fn lowest_free(taken: &[u8]) -> usize
    ensures { (result ≡ lowest (marked taken.now)) × (result ≤ 255) }
{
    for id in 0..IDS {
        if byte(taken, id) != TAKEN {
            return id;
        }
    }
    IDS
}

// Takes the ids of `count` parameters, whose pairs begin at a place.
fn take_parameters(s: &[u8], taken: &mut [u8; IDS], at: usize, count: usize)
    requires { (at + 2 * count ≤ 8192) × (count ≤ 4) }
    ensures { taken.new ≡ took_parameters s.now at count taken.old }
{
    if count == 0 {
        return;
    }
    let id = byte(s, at);
    put(taken, id, TAKEN);
    take_parameters(s, taken, at + 2, count - 1);
}

// Takes the ids that the record of a kind at a place binds.
fn take_ids(s: &[u8], taken: &mut [u8; IDS], at: usize, kind: u8)
    requires { at ≤ 4096 }
    ensures { taken.new ≡ took_ids s.now at kind
        (min (get_or s.now (at + 3) 0) 4) taken.old }
{
    let id = byte(s, at + ID);
    if kind == NEW {
        put(taken, id, TAKEN);
        return;
    }
    if kind == PROCEDURE {
        let count = least(byte(s, at + COUNT), MOST_ARGUMENTS);
        put(taken, id, TAKEN);
        take_parameters(s, taken, at + PARAMETER_IDS, count);
    }
}

// Takes the ids of the name records before the root, and enters their arguments in the scope.
pub(crate) fn take_names(s: &[u8], root: usize, taken: &mut [u8; IDS], scope: &mut [u16; IDS])
    requires { root ≤ 4096 }
    ensures { Headed s.now root taken.old scope.old taken.new
        scope.new }
{
    let mut at = FIRST_RECORD;
    // A while: a record is as wide as its kind says.
    while at < root {
        let kind = get_or(s, at, 0);
        let id = byte(s, at + ID);
        put(taken, id, TAKEN);
        put_word(scope, id, name_entry(kind, byte(s, at + COUNT)));
        at += 1 + body_of(kind);
    }
}

// The entry of a name record's id.
fn name_entry(kind: u8, count: usize) -> usize
    requires { count < 256 }
    ensures { (result ≡ name_entry kind count) × (result < 65536) }
{
    if kind == RETIRE {
        return 0;
    }
    named_entry(count)
}

// Takes the ids that the records from the root on bind.
pub(crate) fn take_bound(s: &[u8], root: usize, taken: &mut [u8; IDS])
    requires { length s.now ≤ 4096 }
    ensures { Taken s.now root taken.old taken.new }
{
    let mut at = root;
    // A while: a record is as wide as its kind says.
    while at < s.len() {
        let kind = get_or(s, at, 0);
        take_ids(s, taken, at, kind);
        at += 1 + body_of(kind);
    }
}
