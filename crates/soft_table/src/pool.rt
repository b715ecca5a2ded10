//! The pool.
ghost use Rattle.std.specs.Prelude.{◌≡◌, ◌≤◌, ◌<◌, ℕ, IsTrue, IsNone, IfOk, IfErr, IfSome, Some, slice_get, slice_set, map, replicate, length};
ghost use Rattle.soft_table.specs.declared.cell.Cell.TheVariants.{Free, Live, Due};
ghost use Rattle.soft_table.specs.Cells.{is_live, IsLiveWith, aged, NoneDue, NoneFree};

use crate::cell::{Cell, Slot};
use crate::entry::{DUE, Entry, FREE, make, place, take, wheel_at};
use crate::slot_lists::SlotLists;
use crate::wheel::{pass, rewind, soonest_after};
use rsvp_base::NoMemory;
use std::alloc::Global;
use std::marker::Model;
use std::mem;

/// Slots for values that expire. Contracts see the list of what is in each slot.
#[derive(Drop)]
pub struct Pool<T> {
    // The milliseconds that have passed, less whole turns of the wheel.
    clock: u64,
    // A time on this clock, not behind it: no live value stands in its list for a time before it.
    soonest: u64,
    // False only where no due value waits: then nobody looks at the lists for one.
    due_may_wait: bool,
    // Of the slots that were used so far. The others are free.
    entries: Vec<Entry<T>>,
    lists: SlotLists,
}

impl<T> Model for Pool<T> {
    ghost use Rattle.std.specs.Prelude.{List, ◌≤◌, vec_capacity};
    ghost use Rattle.soft_table.specs.declared.cell.Cell.{Cell};
    ghost use Rattle.soft_table.specs.Wheel.{cells, IsPool, NoneMayWait};

    ghost Value = { List (Cell T) };

    ghost view = { λ p. cells p.clock p.lists.room p.entries.items };

    ghost invariant = { λ p. IsPool p.entries.items p.lists.homes p.lists.room p.clock p.soonest × (p.lists.room ≤ vec_capacity p.entries) × NoneMayWait p.due_may_wait p.lists.homes };
}

impl<T: Drop> Pool<T> {
    /// A pool of so many slots, at most 65,536, all free. It takes no memory later. `NoMemory`: the slots could not be had.
    pub fn open(alloc: Global, slots: usize) -> Result<Pool<T>, NoMemory>
        requires { slots ≤ 65536 }
        ensures { IfOk result (λ p. p ≡ replicate slots Free) }
    {
        let lists = SlotLists::open(alloc, slots)?;
        let entries = Vec::with_capacity(alloc, slots)?;
        Ok(Pool {
            clock: 0,
            soonest: u64::MAX,
            due_may_wait: false,
            entries,
            lists,
        })
    }

    /// Whether a slot is live.
    pub fn live(&self, slot: Slot) -> bool
        requires { slot.0 < length self.now }
        ensures { result ≡ is_live (slice_get self.now slot.0) }
    {
        match self.entries.get(slot.0 as usize) {
            Some(entry) => matches!(entry.value, Some(_)) && self.clock < entry.moment,
            None => false,
        }
    }

    /// Puts a value with this much left, in milliseconds, into a free slot. The value comes back exactly where no slot is
    /// free; nothing changes then.
    pub fn add(&mut self, value: T, left: u32) -> Result<Slot, T>
        requires { 1 ≤ left }
        ensures free { IfOk result (λ s. slice_get self.old s.0 ≡ Some Free) }
        ensures placed { IfOk result (λ s. self.new ≡ slice_set self.old s.0 (Live value left)) }
        ensures full { IfErr result (λ v. NoneFree self.old) }
        ensures back { IfErr result (λ v. v ≡ value) }
        ensures err { IfErr result (λ v. self.new ≡ self.old) }
    {
        let moment = self.clock + u64::from(left);
        let soonest = self.soonest.min(moment);
        if let Some(slot) = self.lists.first(FREE) {
            let entry = Entry {
                moment,
                value: Some(value),
            };
            place(&mut self.entries, &mut self.lists, slot, entry, self.clock);
            self.soonest = soonest;
            return Ok(Slot(slot));
        }
        if self.lists.is_full() {
            return Err(value);
        }
        let entry = Entry {
            moment,
            value: Some(value),
        };
        let slot = make(&mut self.entries, &mut self.lists, entry, self.clock);
        self.soonest = soonest;
        Ok(Slot(slot))
    }

    /// The value of a live slot.
    pub fn get(&self, slot: Slot) -> &T
        requires { IsTrue (is_live (slice_get self.now slot.0)) }
        ensures { IsLiveWith (slice_get self.now slot.0) result.now }
    {
        match &self.entries[slot.0 as usize].value {
            Some(value) => value,
            None => unreachable!(),
        }
    }

    /// Puts a value in place of that of a live slot, and hands back the old one. What is left stays.
    pub fn set(&mut self, slot: Slot, value: T) -> T
        requires { IsTrue (is_live (slice_get self.old slot.0)) }
        ensures { (left : ℕ) × (slice_get self.old slot.0 ≡ Some (Live result left)) × (self.new ≡ slice_set self.old slot.0 (Live value left)) }
    {
        match mem::replace(&mut self.entries[slot.0 as usize].value, Some(value)) {
            Some(old) => old,
            None => unreachable!(),
        }
    }

    /// Takes the value of a live slot out. The slot is free then.
    pub fn remove(&mut self, slot: Slot) -> T
        requires { IsTrue (is_live (slice_get self.old slot.0)) }
        ensures was { IsLiveWith (slice_get self.old slot.0) result }
        ensures gone { self.new ≡ slice_set self.old slot.0 Free }
    {
        match take(&mut self.entries, &mut self.lists, slot.0) {
            Some(value) => value,
            None => unreachable!(),
        }
    }

    /// Leaves this much of a live slot's value, in milliseconds, whatever was left of it before.
    pub fn renew(&mut self, slot: Slot, left: u32)
        requires live { IsTrue (is_live (slice_get self.old slot.0)) }
        requires some { 1 ≤ left }
        ensures { (v : T) × (was : ℕ) × (slice_get self.old slot.0 ≡ Some (Live v was)) × (self.new ≡ slice_set self.old slot.0 (Live v left)) }
    {
        let moment = self.clock + u64::from(left);
        let was = mem::replace(&mut self.entries[slot.0 as usize].moment, moment);
        // A slot whose moment comes no earlier stays in its list: time passes that list by then.
        if moment < was {
            self.lists.shift(slot.0, wheel_at(moment));
            self.soonest = self.soonest.min(moment);
        }
    }

    /// Lets time pass, in milliseconds. The values with at most so much left are due then, whatever `ms` is, and the others
    /// have so much less left. No due value may wait from before.
    pub fn advance(&mut self, ms: u32)
        requires { NoneDue self.old }
        ensures { self.new ≡ map (aged ms) self.old }
    {
        let clock = rewind(&mut self.entries, &mut self.soonest, self.clock);
        let now = clock + u64::from(ms);
        self.clock = now;
        // Each live value stands in its list for a later time: it stays there, and none runs out.
        if now < self.soonest {
            return;
        }
        pass(self.entries.as_slice(), &mut self.lists, clock, now);
        self.soonest = soonest_after(&self.lists, now);
        self.due_may_wait = true;
    }

    /// Takes a due value out of its slot, which is free then. `None` exactly where no due value waits; nothing changes then.
    pub fn pull_due(&mut self) -> Option<(Slot, T)>
        ensures due { IfSome result (λ r. slice_get self.old r.0.0 ≡ Some (Due r.1)) }
        ensures freed { IfSome result (λ r. self.new ≡ slice_set self.old r.0.0 Free) }
        ensures none { IsNone result → NoneDue self.old }
        ensures unchanged { IsNone result → self.new ≡ self.old }
    {
        if !self.due_may_wait {
            return None;
        }
        let Some(slot) = self.lists.first(DUE) else {
            self.due_may_wait = false;
            return None;
        };
        match take(&mut self.entries, &mut self.lists, slot) {
            Some(value) => Some((Slot(slot), value)),
            None => unreachable!(),
        }
    }

    /// Empties every slot, live or due.
    pub fn clear(&mut self)
        ensures { self.new ≡ map (λ _. Free) self.old }
    {
        self.entries.clear();
        self.lists.clear();
        self.soonest = u64::MAX;
        self.due_may_wait = false;
    }
}
