//! The notes on the names of a list: those that don't fit, and those that an earlier one has.

ghost use Rattle.std.specs.Prelude.{◌≡◌, ℕ, IfOk, OnOk, IsOk, IsTrue, ◌<◌, ◌≤◌, ◌^◌, ◌&&◌, if◌then◌else◌, [], get_or, length, map};
ghost use Rattle.ncc_values.specs.Name.{FitsAsName};
ghost use Rattle.ncc_check.specs.Slots.{has_name, is_shared, with_name};
ghost use Rattle.ncc_check.specs.Noting.{Adds, ArePlain, IsItemOffset, IsPlain, NameNotes, NameNotesAt, StepsOn, ToldNotes, offsets_from};

use crate::note::{Note, NoteKind};
use crate::notes::item::Item;
use crate::notes::pairs::{SLOTS, is_duplicate};
use crate::notes::pushing::note_if;
use crate::notes::slots::{Slot, is_shared, slots_of};
use indexmap::IndexSet;
use ncc_header::Version;
use ncc_values::name_fits;
use std::alloc::{AllocError, Global};

/// The most names that are compared pair by pair.
const SHORT: usize = 32;

/// Where the item with this number stands.
#[derive(Clone, Copy)]
struct ItemOffset {
    number: usize,
    offset: u64,
}

/// Steps on to the item with this number, over the sizes of those before it.
fn step_to<T: Item>(version: Version, items: &[T], number: usize, item: &mut ItemOffset)
    requires order { (item.old.number ≤ number) × (number ≤ length items.now) }
    ensures number { item.new.number ≡ number }
    ensures offset { StepsOn (T.canon version) items.now item.old item.new }
{
    while item.number < number {
        item.offset = item.offset.saturating_add(items[item.number].size(version));
        item.number += 1;
    }
}

/// Notes the name with this number, by what the caller tells of it: whether it fits, and whether an earlier one is the
/// same. It stands apart, so that names without a note don't pay for it.
#[inline(never)]
fn note_told<T: Item>(
    version: Version,
    items: &[T],
    number: usize,
    fits: bool,
    repeated: bool,
    item: &mut ItemOffset,
    notes: &mut Vec<Note>,
) -> Result<(), AllocError>
    requires there { number < length items.now }
    requires order { item.old.number ≤ number }
    ensures number { item.new.number ≡ number }
    ensures offset { StepsOn (T.canon version) items.now item.old item.new }
    ensures notes { OnOk result (Adds (ToldNotes fits repeated item.new.offset) notes.old.items notes.new.items) }
{
    step_to(version, items, number, item);
    note_if(notes, !fits, NoteKind::NameRule, item.offset)?;
    note_if(notes, repeated, NoteKind::DuplicateName, item.offset)?;
    Ok(())
}

/// Notes the name with this number if it breaks the rule of names, and notes it if an earlier one is the same, as the
/// caller tells. Without a note, where it stands isn't summed up.
#[inline(always)]
fn note_name<T: Item>(
    alloc: Global,
    version: Version,
    items: &[T],
    number: usize,
    repeated: bool,
    item: &mut ItemOffset,
    notes: &mut Vec<Note>,
) -> Result<(), AllocError>
    requires there { number < length items.now }
    requires order { item.old.number ≤ number }
    ensures order { item.new.number ≤ number }
    ensures offset { StepsOn (T.canon version) items.now item.old item.new }
    ensures notes { (start : ℕ) → start < 2 ^ 64 → IsItemOffset (T.canon version) start items.now item.old
        → OnOk result (Adds
        (NameNotesAt (map T.text items.now) (offsets_from (T.canon version) start items.now) number (IsTrue repeated))
        notes.old.items notes.new.items) }
    ensures none { IsPlain (get_or (map T.text items.now) number []) → ¬ IsTrue repeated → IsOk result }
    ensures rests { FitsAsName (get_or (map T.text items.now) number []) → ¬ IsTrue repeated → item.new ≡ item.old }
{
    let fits = name_fits(alloc, items[number].name())?;
    if fits && !repeated {
        return Ok(());
    }
    note_told(version, items, number, fits, repeated, item, notes)?;
    Ok(())
}

/// The notes on the names of a short list. Pair by pair, one that comes again is found sooner there.
fn note_names_by_pairs<T: Item>(
    alloc: Global,
    version: Version,
    items: &[T],
    start: u64,
    notes: &mut Vec<Note>,
) -> Result<(), AllocError>
    requires short { length items.now ≤ 32 }
    ensures notes { OnOk result (Adds
        (NameNotes (map T.text items.now) (offsets_from (T.canon version) start items.now))
        notes.old.items notes.new.items) }
    ensures none { ArePlain (map T.text items.now) → IsOk result }
{
    let mut keys = [0; SHORT];
    let mut taken = [false; SLOTS];
    let mut item = ItemOffset {
        number: 0,
        offset: start,
    };
    for i in 0..items.len() {
        let repeated = is_duplicate(items, &mut keys, &mut taken, i);
        note_name(alloc, version, items, i, repeated, &mut item, notes)?;
    }
    Ok(())
}

/// Whether the table has a name that shares its slot; it has it then. Another name isn't looked for, nor put there.
#[inline(always)]
fn is_seen<'a>(
    seen: &mut IndexSet<&'a [u8]>,
    slots: &[Slot],
    name: &'a [u8],
) -> Result<bool, AllocError>
    requires some { 0 < length slots.now }
    requires few { length slots.now < 2 ^ 32 }
    ensures repeated { IfOk result (λ repeated.
        repeated ≡ (is_shared slots.now name.now && has_name name.entry seen.old.keys)) }
    ensures table { OnOk result (seen.new.keys
        ≡ (if is_shared slots.now name.now then with_name name.entry seen.old.keys else seen.old.keys)) }
{
    if !is_shared(slots, name) {
        return Ok(false);
    }
    let (_, is_new) = seen.insert_full(name)?;
    Ok(!is_new)
}

/// The notes on the names of a long list. One that comes again is found by a table of the names so far that share a
/// slot.
fn note_names_by_table<T: Item>(
    alloc: Global,
    version: Version,
    items: &[T],
    start: u64,
    notes: &mut Vec<Note>,
) -> Result<(), AllocError>
    ensures { OnOk result (Adds
        (NameNotes (map T.text items.now) (offsets_from (T.canon version) start items.now))
        notes.old.items notes.new.items) }
{
    let slots = slots_of(alloc, items)?;
    let mut seen = IndexSet::new(alloc);
    let mut item = ItemOffset {
        number: 0,
        offset: start,
    };
    for i in 0..items.len() {
        let repeated = is_seen(&mut seen, &slots, items[i].name())?;
        note_name(alloc, version, items, i, repeated, &mut item, notes)?;
    }
    Ok(())
}

/// The notes on the names of a list, whose first item stands at this offset. If no note is due, a list of up to 32
/// names of ASCII takes no memory.
pub fn note_names<T: Item>(
    alloc: Global,
    version: Version,
    items: &[T],
    start: u64,
    notes: &mut Vec<Note>,
) -> Result<(), AllocError>
    ensures notes { OnOk result (Adds
        (NameNotes (map T.text items.now) (offsets_from (T.canon version) start items.now))
        notes.old.items notes.new.items) }
    ensures none { length items.now ≤ 32 → ArePlain (map T.text items.now) → IsOk result }
{
    if items.is_empty() {
        return Ok(());
    }
    if items.len() <= SHORT {
        return note_names_by_pairs(alloc, version, items, start, notes);
    }
    note_names_by_table(alloc, version, items, start, notes)
}
