//! Time: the lists of the wheel that it passes, and the clock set back before it runs out.
ghost use Rattle.std.specs.Prelude.{◌≡◌, ◌<◌, ◌≤◌, ◌^◌, ◌%◌, ℕ, List, length, slice_get, map, vec_capacity, Some};
ghost use Rattle.soft_table.specs.declared.entry.Entry.{Entry};
ghost use Rattle.soft_table.specs.Wheel.{AreFiled, shown, set_back, wheel_list};

use crate::entry::{ASIDE, DUE, Entry, LISTS, WHEEL, WIDTH, wheel_at};
use crate::slot_lists::SlotLists;

// The list that a slot of a list that is looked at goes to: that of the due where its moment has come, and else aside.
fn sorted<T>(entry: &Entry<T>, now: u64) -> u16
    ensures due { entry.now.moment ≤ now → result ≡ 1 }
    ensures later { now < entry.now.moment → result ≡ 2 }
{
    if entry.moment <= now { DUE } else { ASIDE }
}

// Goes through one list: the slots whose moment has come are due then, and the others are in the lists of their moments.
fn turn<T>(entries: &[Entry<T>], lists: &mut SlotLists, list: u16, now: u64)
    requires size { length lists.old.homes ≡ length entries.now }
    requires list { 3 ≤ list × list < 259 }
    requires aside { (i : ℕ) → slice_get lists.old.homes i ≡ Some 2 → ⊥ }
    ensures room { lists.new.room ≡ lists.old.room }
    ensures size { length lists.new.homes ≡ length lists.old.homes }
    ensures others { (i : ℕ) (h : ℕ) → slice_get lists.old.homes i ≡ Some h → (h ≡ list → ⊥) → slice_get lists.new.homes i ≡ Some h }
    ensures due { (i : ℕ) (e : Entry T) → slice_get entries.now i ≡ Some e → slice_get lists.old.homes i ≡ Some list → e.moment ≤ now → slice_get lists.new.homes i ≡ Some 1 }
    ensures later { (i : ℕ) (e : Entry T) → slice_get entries.now i ≡ Some e → slice_get lists.old.homes i ≡ Some list → now < e.moment → slice_get lists.new.homes i ≡ Some (wheel_list e.moment) }
{
    while let Some(slot) = lists.first(list) {
        let to = sorted(&entries[slot as usize], now);
        lists.shift(slot, to);
    }
    while let Some(slot) = lists.first(ASIDE) {
        lists.shift(slot, wheel_at(entries[slot as usize].moment));
    }
}

// Lets the time up to a moment pass: goes through the lists that it passes, each once.
pub(crate) fn pass<T>(entries: &[Entry<T>], lists: &mut SlotLists, clock: u64, now: u64)
    requires lists { AreFiled clock clock entries.now lists.old.homes }
    requires order { clock ≤ now }
    requires early { now < 2 ^ 63 }
    ensures lists { AreFiled now now entries.now lists.new.homes }
    ensures room { lists.new.room ≡ lists.old.room }
{
    let first = clock / WIDTH;
    let more = (now / WIDTH - first).min(LISTS - 1);
    for step in 0..more + 1 {
        let list = WHEEL + ((first + step) % LISTS) as u16;
        turn(entries, lists, list, now);
    }
}

// From a moment on, the first time whose list has a slot: the moment itself, or the beginning of the first such list ahead.
// Where no list of the wheel has one, the last time of all.
pub(crate) fn soonest_after(lists: &SlotLists, now: u64) -> u64
    requires early { now < 2 ^ 63 }
    ensures ahead { now ≤ result }
    ensures none { (i : ℕ) (time : ℕ) → slice_get lists.now.homes i ≡ Some (wheel_list time) → now ≤ time → result ≤ time }
{
    let first = now / WIDTH;
    for step in 0..LISTS {
        let ahead = first + step;
        let list = WHEEL + (ahead % LISTS) as u16;
        if lists.first(list).is_some() {
            return now.max(ahead * WIDTH);
        }
    }
    u64::MAX
}

// Sets every moment back.
fn set_all_back<T: Drop>(entries: &mut Vec<Entry<T>>, by: u64)
    ensures entries { entries.new.items ≡ map (set_back by) entries.old.items }
    ensures capacity { vec_capacity entries.new ≡ vec_capacity entries.old }
{
    for i in 0..entries.len() {
        let entry = &mut entries[i];
        entry.moment = entry.moment.saturating_sub(by);
    }
}

// Sets the clock back by whole turns of the wheel where it has gone far, and the soonest time with it, so that every slot
// stays in its list. Answers the clock.
pub(crate) fn rewind<T: Drop>(entries: &mut Vec<Entry<T>>, soonest: &mut u64, clock: u64) -> u64
    requires ahead { clock ≤ soonest.old }
    ensures early { result < 2 ^ 62 }
    ensures shown { map (shown result) entries.new.items ≡ map (shown clock) entries.old.items }
    ensures ahead { result ≤ soonest.new }
    ensures lists { (homes : List ℕ) → AreFiled clock soonest.old entries.old.items homes → AreFiled result soonest.new entries.new.items homes }
    ensures capacity { vec_capacity entries.new ≡ vec_capacity entries.old }
{
    if clock < 1 << 62 {
        return clock;
    }
    let into = clock % (LISTS * WIDTH);
    let by = clock - into;
    set_all_back(entries, by);
    *soonest -= by;
    into
}
