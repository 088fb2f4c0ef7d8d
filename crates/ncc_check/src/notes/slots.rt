//! Slots of names: a name that has its slot for itself has no other like it in its list.

ghost use Rattle.std.specs.Prelude.{◌≡◌, ◌+◌, ◌*◌, ◌<◌, ◌^◌, min, IfOk, length, map};
ghost use Rattle.ncc_check.specs.Slots.{AreSlots, hash_of, is_shared, mixed, once_more, slot_of};

use crate::notes::item::Item;
use crate::notes::keys::key;
use ncc_values::number;
use std::alloc::{AllocError, Global};

/// How many names have a slot.
#[derive(Clone, Copy, PartialEq, Eq)]
pub enum Slot {
    Free,
    Once,
    Shared,
}

/// How many slots there are for each name, so that few names share one by chance.
const SLOTS_PER_NAME: usize = 8;

/// The most slots, but for one: their number is one of 32 bits.
const MOST: usize = 1 << 31;

/// An odd factor that spreads bits upwards.
const FACTOR: u64 = 0x9E37_79B9_7F4A_7C15;

/// With 8 more bytes.
#[inline]
fn mixed(hash: u64, bytes: u64) -> u64
    ensures { result ≡ mixed hash bytes }
{
    hash.wrapping_add(bytes).wrapping_mul(FACTOR)
}

/// A number made of all bytes of a name: of 8 after another, and then of the last 8.
fn hash_of(name: &[u8]) -> u64
    ensures { result ≡ hash_of name.now }
{
    let mut hash = 0;
    for i in 0..name.len().saturating_sub(1) / 8 {
        hash = mixed(hash, number(&name[i * 8..i * 8 + 8]));
    }
    mixed(hash, key(name))
}

/// The slot of a name, of so many.
fn slot_of(name: &[u8], count: usize) -> usize
    requires some { 0 < count }
    requires few { count < 2 ^ 32 }
    ensures is { result ≡ slot_of count name.now }
    ensures there { result < count }
{
    let high = (hash_of(name) >> 32) as u32;
    (high % count as u32) as usize
}

/// With one more name.
fn once_more(slot: Slot) -> Slot
    ensures { result ≡ once_more slot }
{
    match slot {
        Slot::Free => Slot::Once,
        Slot::Once | Slot::Shared => Slot::Shared,
    }
}

/// Slots that no name has yet, for so many names. Their number is odd, so that each bit of a hash tells.
fn free_slots(alloc: Global, names: usize) -> Result<Vec<Slot>, AllocError>
    ensures { IfOk result (λ v. length v.items ≡ min (names * 8) (2 ^ 31) + 1) }
{
    let count = names.saturating_mul(SLOTS_PER_NAME).min(MOST) + 1;
    let mut slots = Vec::with_capacity(alloc, count)?;
    slots.resize(count, Slot::Free)?;
    Ok(slots)
}

/// The slots of the names of these items.
pub fn slots_of<T: Item>(alloc: Global, items: &[T]) -> Result<Vec<Slot>, AllocError>
    ensures { IfOk result (λ v. AreSlots (map T.text items.now) v.items) }
{
    let mut slots = free_slots(alloc, items.len())?;
    let count = slots.len();
    for item in items {
        let at = slot_of(item.name(), count);
        slots[at] = once_more(slots[at]);
    }
    Ok(slots)
}

/// Whether names share the slot of this one.
pub fn is_shared(slots: &[Slot], name: &[u8]) -> bool
    requires some { 0 < length slots.now }
    requires few { length slots.now < 2 ^ 32 }
    ensures { result ≡ is_shared slots.now name.now }
{
    slots[slot_of(name, slots.len())] == Slot::Shared
}
