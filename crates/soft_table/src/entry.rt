//! What a pool keeps of a slot, and the list that the slot is put into.
ghost use Rattle.std.specs.Prelude.{◌≡◌, ◌<◌, ◌++◌, ◌∷◌, [], length, slice_get, slice_set, vec_capacity, Some, None};
ghost use Rattle.soft_table.specs.declared.entry.Entry.{Entry};
ghost use Rattle.soft_table.specs.Wheel.{list_at, wheel_list};

use crate::slot_lists::SlotLists;
use std::mem;

/// The list of the free slots, that of the due ones, and one that is empty between calls.
pub(crate) const FREE: u16 = 0;

pub(crate) const DUE: u16 = 1;

pub(crate) const ASIDE: u16 = 2;

/// The first list of the wheel, how many it has, and how many milliseconds belong to each.
pub(crate) const WHEEL: u16 = 3;

pub(crate) const LISTS: u64 = 256;

pub(crate) const WIDTH: u64 = 1024;

// A slot's place in the memory of a pool. It is free where it has no value.
#[derive(Drop)]
pub(crate) struct Entry<T> {
    // When the value runs out, on the pool's clock. It lies beside the mark that says whether there is a value: most often both
    // are asked for, and a value is long.
    pub(crate) moment: u64,
    pub(crate) value: Option<T>,
}

// The list of the wheel for a moment.
pub(crate) fn wheel_at(moment: u64) -> u16
    ensures { result ≡ wheel_list moment }
{
    WHEEL + (moment / WIDTH % LISTS) as u16
}

// The list that a slot is put into.
fn list_for<T>(entry: &Entry<T>, clock: u64) -> u16
    ensures { result ≡ list_at clock entry.now }
{
    match entry.value {
        None => FREE,
        Some(_) if entry.moment <= clock => DUE,
        Some(_) => wheel_at(entry.moment),
    }
}

// Puts an entry into a slot, moves the slot to its list, and hands back what was there.
pub(crate) fn place<T: Drop>(
    entries: &mut Vec<Entry<T>>,
    lists: &mut SlotLists,
    slot: u32,
    entry: Entry<T>,
    clock: u64,
) -> Entry<T>
    requires here { slot < length entries.old.items }
    requires size { length lists.old.homes ≡ length entries.old.items }
    ensures was { slice_get entries.old.items slot ≡ Some result }
    ensures entries { entries.new.items ≡ slice_set entries.old.items slot entry }
    ensures lists { lists.new ≡ record { homes = slice_set lists.old.homes slot (list_at clock entry); room = lists.old.room } }
    ensures capacity { vec_capacity entries.new ≡ vec_capacity entries.old }
{
    lists.shift(slot, list_for(&entry, clock));
    mem::replace(&mut entries[slot as usize], entry)
}

// Makes the next slot, with an entry in it. It takes no memory.
pub(crate) fn make<T: Drop>(
    entries: &mut Vec<Entry<T>>,
    lists: &mut SlotLists,
    entry: Entry<T>,
    clock: u64,
) -> u32
    requires room { length lists.old.homes < lists.old.room }
    requires size { length lists.old.homes ≡ length entries.old.items }
    requires capacity { length entries.old.items < vec_capacity entries.old }
    ensures slot { result ≡ length entries.old.items }
    ensures entries { entries.new.items ≡ entries.old.items ++ entry ∷ [] }
    ensures lists { lists.new ≡ record { homes = lists.old.homes ++ list_at clock entry ∷ []; room = lists.old.room } }
    ensures capacity { vec_capacity entries.new ≡ vec_capacity entries.old }
{
    let slot = lists.push(list_for(&entry, clock));
    entries.push_reserved(entry);
    slot
}

// Takes the value of a slot out.
pub(crate) fn take<T: Drop>(
    entries: &mut Vec<Entry<T>>,
    lists: &mut SlotLists,
    slot: u32,
) -> Option<T>
    requires here { slot < length entries.old.items }
    requires size { length lists.old.homes ≡ length entries.old.items }
    ensures entries { (e : Entry T) × (slice_get entries.old.items slot ≡ Some e) × (result ≡ e.value) × (entries.new.items ≡ slice_set entries.old.items slot (record { value = None; moment = 0 })) }
    ensures lists { lists.new ≡ record { homes = slice_set lists.old.homes slot 0; room = lists.old.room } }
    ensures capacity { vec_capacity entries.new ≡ vec_capacity entries.old }
{
    let free = Entry {
        moment: 0,
        value: None,
    };
    place(entries, lists, slot, free, 0).value
}
