//! The lists.
ghost use Rattle.std.specs.Prelude.{◌≡◌, ◌≤◌, ◌<◌, ◌+◌, ◌++◌, ◌∷◌, ◌↔◌, [], ℕ, IsTrue, IsNone, IfOk, IfSome, length, slice_set, slice_get, Some, vec_capacity};
ghost use Rattle.soft_table.specs.Links.{AreHeads};

use rsvp_base::NoMemory;
use std::alloc::Global;
use std::marker::Model;

/// How many lists there are.
pub const LISTS: u16 = 259;

/// Slots in lists. Contracts see the list of each slot that was made, and how many can be made.
#[derive(Drop)]
pub struct SlotLists {
    // Of the head of each list, and behind the heads of each slot, the one behind it and the one before it.
    next: Vec<u32>,
    prev: Vec<u32>,
    // The list that each slot is in.
    home: Vec<u16>,
    // How many slots can be made.
    room: usize,
}

impl Model for SlotLists {
    ghost use Rattle.std.specs.Prelude.{◌≤◌, ◌+◌, vec_capacity};
    ghost use Rattle.soft_table.specs.Links.{Slots, AreLists};

    ghost Value = { Slots };

    ghost view = { λ l. record { homes = l.home.items; room = l.room } };

    // A slot that is made takes no memory: the room was taken at opening.
    ghost invariant = { λ l. AreLists l.next.items l.prev.items l.home.items l.room × (259 + l.room ≤ vec_capacity l.next) × (259 + l.room ≤ vec_capacity l.prev) × (l.room ≤ vec_capacity l.home) };
}

// Puts down the heads of empty lists: each leads to itself.
fn put_heads(links: &mut Vec<u32>)
    requires none { links.old.items ≡ [] }
    requires room { 259 ≤ vec_capacity links.old }
    ensures heads { AreHeads 259 links.new.items }
    ensures capacity { vec_capacity links.new ≡ vec_capacity links.old }
{
    for list in 0..LISTS {
        links.push_reserved(u32::from(list));
    }
}

impl SlotLists {
    /// Room for so many slots, at most 65,536, of which none is made. They take no memory later. `NoMemory`: the room could
    /// not be had.
    pub fn open(alloc: Global, room: usize) -> Result<SlotLists, NoMemory>
        requires { room ≤ 65536 }
        ensures { IfOk result (λ l. l ≡ record { homes = []; room = room }) }
    {
        let all = usize::from(LISTS) + room;
        let mut next = Vec::with_capacity(alloc, all)?;
        let mut prev = Vec::with_capacity(alloc, all)?;
        let home = Vec::with_capacity(alloc, room)?;
        put_heads(&mut next);
        put_heads(&mut prev);
        Ok(SlotLists {
            next,
            prev,
            home,
            room,
        })
    }

    /// Whether as many slots were made as there is room for.
    pub fn is_full(&self) -> bool
        ensures { IsTrue result ↔ (self.now.room ≤ length self.now.homes) }
    {
        self.room <= self.home.len()
    }

    /// Makes the next slot, behind all slots of a list. Its number is how many were made before it.
    pub fn push(&mut self, list: u16) -> u32
        requires room { length self.old.homes < self.old.room }
        requires list { list < 259 }
        ensures slot { result ≡ length self.old.homes }
        ensures made { self.new ≡ record { homes = self.old.homes ++ list ∷ []; room = self.old.room } }
    {
        let slot = self.home.len() as u32;
        let i = u32::from(LISTS) + slot;
        let head = u32::from(list);
        let last = self.prev[head as usize];
        self.next[last as usize] = i;
        self.prev[head as usize] = i;
        self.next.push_reserved(head);
        self.prev.push_reserved(last);
        self.home.push_reserved(list);
        slot
    }

    /// Takes a slot out of its list, and puts it behind all slots of a list, which may be the one that it was in.
    pub fn shift(&mut self, slot: u32, list: u16)
        requires here { slot < length self.old.homes }
        requires list { list < 259 }
        ensures { self.new ≡ record { homes = slice_set self.old.homes slot list; room = self.old.room } }
    {
        let at = usize::from(LISTS) + slot as usize;
        let behind = self.next[at];
        let before = self.prev[at];
        self.next[before as usize] = behind;
        self.prev[behind as usize] = before;
        let i = at as u32;
        let head = u32::from(list);
        let last = self.prev[head as usize];
        self.next[last as usize] = i;
        self.next[at] = head;
        self.prev[head as usize] = i;
        self.prev[at] = last;
        self.home[slot as usize] = list;
    }

    /// The first slot of a list. `None` exactly where it has none.
    pub fn first(&self, list: u16) -> Option<u32>
        requires { list < 259 }
        ensures some { IfSome result (λ s. slice_get self.now.homes s ≡ Some list) }
        ensures none { IsNone result → (s : ℕ) → slice_get self.now.homes s ≡ Some list → ⊥ }
    {
        let first = self.next[usize::from(list)];
        if first >= u32::from(LISTS) {
            Some(first - u32::from(LISTS))
        } else {
            None
        }
    }

    /// Unmakes all slots. The room stays.
    pub fn clear(&mut self)
        ensures { self.new ≡ record { homes = []; room = self.old.room } }
    {
        self.next.clear();
        self.prev.clear();
        self.home.clear();
        put_heads(&mut self.next);
        put_heads(&mut self.prev);
    }
}
