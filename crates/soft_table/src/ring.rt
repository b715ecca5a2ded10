//! Slots in an order.
ghost use Rattle.std.specs.Prelude.{◌≡◌, ◌≤◌, ◌<◌, ◌+◌, [], ℕ, IfOk, length, slice_get, Some, Option, vec_capacity};
ghost use Rattle.std.specs.List.{insert, remove};
ghost use Rattle.soft_table.specs.Ring.{Has, at, slot_of, number_of};

use rsvp_base::NoMemory;
use std::alloc::Global;
use std::marker::Model;

/// Slots in an order. Contracts see the list of slots, and how many slots there are.
#[derive(Drop)]
pub(crate) struct Ring {
    // Of the number 0, which stands before the first slot and behind the last, and of each slot s, the number s + 1, the
    // number behind it and the one before it.
    next: Vec<u32>,
    prev: Vec<u32>,
    len: usize,
    room: usize,
}

impl Model for Ring {
    ghost use Rattle.std.specs.Prelude.{◌<◌, vec_capacity};
    ghost use Rattle.soft_table.specs.Ring.{Order, IsOrder, walked};

    ghost Value = { Order };

    ghost view = { λ l. record { slots = walked l.next.items l.len 0; room = l.room } };

    // A slot that is put in takes no memory: the room was taken at opening.
    ghost invariant = { λ l. IsOrder l.next.items l.prev.items l.len l.room × (l.room < vec_capacity l.next) × (l.room < vec_capacity l.prev) };
}

// Makes links up to a number. What is read behind the end stays 0.
fn grow(links: &mut Vec<u32>, number: usize)
    requires { number < vec_capacity links.old }
    ensures made { number < length links.new.items }
    ensures same { (j : ℕ) → at links.new.items j ≡ at links.old.items j }
    ensures more { length links.old.items ≤ length links.new.items }
    ensures capacity { vec_capacity links.new ≡ vec_capacity links.old }
{
    for _more in links.len()..number + 1 {
        links.push_reserved(0);
    }
}

// The slot of a number.
#[inline(always)]
fn slot_of(number: u32) -> Option<u32>
    ensures { result ≡ slot_of number }
{
    if number == 0 { None } else { Some(number - 1) }
}

// The number of a slot, or of none.
fn number_of(slot: Option<u32>) -> usize
    ensures { result ≡ number_of slot }
{
    match slot {
        Some(slot) => slot as usize + 1,
        None => 0,
    }
}

impl Ring {
    /// Room for so many slots, at most 65,536, of which none is put in. It takes no memory later. `NoMemory`: the room could
    /// not be had.
    pub(crate) fn open(alloc: Global, room: usize) -> Result<Ring, NoMemory>
        requires { room ≤ 65536 }
        ensures { IfOk result (λ l. l ≡ record { slots = []; room = room }) }
    {
        let mut next = Vec::with_capacity(alloc, room + 1)?;
        let mut prev = Vec::with_capacity(alloc, room + 1)?;
        next.push_reserved(0u32);
        prev.push_reserved(0u32);
        Ok(Ring {
            next,
            prev,
            len: 0,
            room,
        })
    }

    /// How many slots are put in.
    pub(crate) fn len(&self) -> usize
        ensures { result ≡ length self.now.slots }
    {
        self.len
    }

    /// How many slots there are.
    pub(crate) fn room(&self) -> usize
        ensures { result ≡ self.now.room }
    {
        self.room
    }

    /// The slot behind one that is put in. `None` exactly where it is the last.
    #[inline(always)]
    pub(crate) fn after(&self, slot: u32) -> Option<u32>
        requires { Has self.now.slots slot }
        ensures { (i : ℕ) → slice_get self.now.slots i ≡ Some slot → result ≡ slice_get self.now.slots (i + 1) }
    {
        slot_of(self.next[slot as usize + 1])
    }

    /// Puts a slot in before another, or behind all where none is named.
    pub(crate) fn insert(&mut self, slot: u32, behind: Option<u32>)
        requires left { length self.old.slots < self.old.room }
        requires within { slot < self.old.room }
        requires new { Has self.old.slots slot → ⊥ }
        requires there { (i : ℕ) × (i ≤ length self.old.slots) × (slice_get self.old.slots i ≡ behind) }
        ensures { (i : ℕ) → i ≤ length self.old.slots → slice_get self.old.slots i ≡ behind → self.new ≡ record { slots = insert self.old.slots i slot; room = self.old.room } }
    {
        let number = slot as usize + 1;
        let before = self.prev[number_of(behind)];
        let after = self.next[before as usize];
        grow(&mut self.next, number);
        grow(&mut self.prev, number);
        self.next[before as usize] = number as u32;
        self.next[number] = after;
        self.prev[after as usize] = number as u32;
        self.prev[number] = before;
        self.len += 1;
    }

    /// Takes a slot out.
    pub(crate) fn remove(&mut self, slot: u32)
        requires { Has self.old.slots slot }
        ensures { (i : ℕ) → slice_get self.old.slots i ≡ Some slot → self.new ≡ record { slots = remove self.old.slots i; room = self.old.room } }
    {
        let number = slot as usize + 1;
        let before = self.prev[number];
        let after = self.next[number];
        self.next[before as usize] = after;
        self.prev[after as usize] = before;
        self.len -= 1;
    }

    /// Takes all slots out.
    pub(crate) fn clear(&mut self)
        ensures { self.new ≡ record { slots = []; room = self.old.room } }
    {
        self.next.clear();
        self.prev.clear();
        self.next.push_reserved(0);
        self.prev.push_reserved(0);
        self.len = 0;
    }
}
