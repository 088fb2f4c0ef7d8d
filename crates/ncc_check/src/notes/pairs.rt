//! Names of a short list, pair by pair: two are compared where their keys are the same.

ghost use Rattle.std.specs.Prelude.{◌≡◌, IsTrue, ◌↔◌, ◌+◌, ◌%◌, ◌<◌, [], false, true, not, length, map, get_or, set};
ghost use Rattle.ncc_check.specs.Noting.{AreKeys, AreTaken, IsDuplicate};

use crate::notes::item::Item;
use crate::notes::keys::key;

/// How many slots there are for keys.
pub const SLOTS: usize = 61;

/// Whether an earlier name is the same as the one with this number. Names are compared where their keys are the same.
fn is_among_earlier<T: Item>(items: &[T], keys: &[u64], number: usize) -> bool
    requires there { number < length items.now }
    requires few { number < length keys.now }
    requires keys { AreKeys (map T.text items.now) (number + 1) keys.now }
    ensures { IsTrue result ↔ IsDuplicate (map T.text items.now) number (get_or (map T.text items.now) number []) }
{
    let name = items[number].name();
    for i in 0..number {
        if keys[i] == keys[number] && items[i].name() == name {
            return true;
        }
    }
    false
}

/// Takes the slot of a key, and tells whether it was free.
fn take_slot(taken: &mut [bool], key: u64) -> bool
    requires { length taken.old ≡ 61 }
    ensures free { result ≡ not (get_or taken.old (key % 61) false) }
    ensures takes { taken.new ≡ set taken.old (key % 61) true }
{
    let slot = (key % SLOTS as u64) as usize;
    let was_free = !taken[slot];
    taken[slot] = true;
    was_free
}

/// Whether an earlier name is the same as the one with this number, whose key and slot then join theirs. A name whose
/// slot was free has a key of its own.
pub fn is_duplicate<T: Item>(
    items: &[T],
    keys: &mut [u64],
    taken: &mut [bool],
    number: usize,
) -> bool
    requires there { number < length items.now }
    requires few { number < length keys.old }
    requires slots { length taken.old ≡ 61 }
    requires keys { AreKeys (map T.text items.now) number keys.old }
    requires taken { AreTaken (map T.text items.now) number taken.old }
    ensures repeated { IsTrue result
        ↔ IsDuplicate (map T.text items.now) number (get_or (map T.text items.now) number []) }
    ensures few { length keys.new ≡ length keys.old }
    ensures slots { length taken.new ≡ 61 }
    ensures keys { AreKeys (map T.text items.now) (number + 1) keys.new }
    ensures taken { AreTaken (map T.text items.now) (number + 1) taken.new }
{
    let own = key(items[number].name());
    keys[number] = own;
    if take_slot(taken, own) {
        return false;
    }
    is_among_earlier(items, keys, number)
}
