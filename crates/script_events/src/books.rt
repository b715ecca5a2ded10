//! The books of ends, and which of them are to be written.

use crate::book_texts::{put_book, put_members};
use network_replay::{Router, World};
use router_rules::Entry;
use rsvp_base::NoMemory;
use std::alloc::Global;
use std::mem::swap;
use tree_routing::Routing;

// An interface has at most so many entries.
const MOST_ENTRIES: usize = 3072;

/// The books that were written last, and the nodes whose books may have changed since.
#[derive(Drop)]
pub(crate) struct Books {
    // What was written of each end, behind the time.
    told: Vec<Vec<u8>>,
    // What is to be written of an end.
    next: Vec<u8>,
    entries: Vec<Entry>,
    is_touched: Vec<bool>,
}

impl Books {
    /// The books of a network of which nothing was written.
    pub(crate) fn open(alloc: Global, routing: &Routing) -> Result<Books, NoMemory> {
        let mut told = Vec::new(alloc);
        for _ in 0..routing.ends().len() {
            told.push(Vec::new(alloc))?;
        }
        let mut is_touched = Vec::new(alloc);
        for _ in 0..routing.nodes() {
            is_touched.push(true)?;
        }
        Ok(Books {
            told,
            next: Vec::new(alloc),
            entries: Vec::new(alloc),
            is_touched,
        })
    }

    /// The books of a node may have changed.
    pub(crate) fn touch(&mut self, node: u16) {
        self.set(node as usize, true);
    }

    fn set(&mut self, at: usize, is_touched: bool) {
        if at < self.is_touched.len() {
            self.is_touched[at] = is_touched;
        }
    }

    /// The books of all nodes may have changed.
    pub(crate) fn touch_all(&mut self) {
        for at in 0..self.is_touched.len() {
            self.set(at, true);
        }
    }

    /// Appends the book of each end that is another than was written last.
    pub(crate) fn put_changed<R: Router + Drop>(
        &mut self,
        world: &World<R>,
        clock: u64,
        out: &mut Vec<u8>,
    ) -> Result<(), NoMemory> {
        for end in 0..self.told.len() {
            self.put_end(world, end, clock, out)?;
        }
        for at in 0..self.is_touched.len() {
            self.set(at, false);
        }
        Ok(())
    }

    // Appends the book of an end, if it is another than was written last.
    fn put_end<R: Router + Drop>(
        &mut self,
        world: &World<R>,
        end: usize,
        clock: u64,
        out: &mut Vec<u8>,
    ) -> Result<(), NoMemory> {
        // There are no more ends than numbers of ends.
        if end > 65_535 {
            return Ok(());
        }
        let Some((number, iface)) = world.place_of(end as u16) else {
            return Ok(());
        };
        if !self.is_touched_at(number) {
            return Ok(());
        }
        let Some(node) = world.node(number) else {
            return Ok(());
        };
        let name = name_of(world, end as u16);
        let capacity = capacity_of(world.routing(), end as u16);
        take_entries(&mut self.entries, node, iface)?;
        self.next.clear();
        put_members(
            &mut self.next,
            name,
            node.held(iface),
            capacity,
            self.entries.as_slice(),
        )?;
        self.put_next(end, clock, out)
    }

    // Whether the books of a node may have changed.
    fn is_touched_at(&self, node: u16) -> bool {
        match self.is_touched.get(node as usize) {
            Some(is_touched) => *is_touched,
            None => false,
        }
    }

    // Appends the next book, that of an end, if it is another than was written last; the first where it has an entry.
    fn put_next(&mut self, end: usize, clock: u64, out: &mut Vec<u8>) -> Result<(), NoMemory> {
        if end >= self.told.len() {
            return Ok(());
        }
        if self.told[end].is_empty() && self.entries.is_empty() {
            return Ok(());
        }
        if self.next.as_slice() == self.told[end].as_slice() {
            return Ok(());
        }
        put_book(out, clock, self.next.as_slice())?;
        swap(&mut self.told[end], &mut self.next);
        Ok(())
    }
}

// The entries of an interface take the place of those that were there.
fn take_entries<R: Router + Drop>(
    entries: &mut Vec<Entry>,
    node: &R,
    iface: u8,
) -> Result<(), NoMemory> {
    entries.clear();
    for k in 0..MOST_ENTRIES {
        let Some(entry) = node.entry(iface, k) else {
            return Ok(());
        };
        entries.push(entry)?;
    }
    Ok(())
}

/// The name of an end; `?` where it has none.
pub(crate) fn name_of<R: Router + Drop>(world: &World<R>, end: u16) -> &[u8] {
    match world.name(end) {
        Some(name) => name.bytes(),
        None => b"?",
    }
}

// The capacity of an end.
fn capacity_of(routing: &Routing, end: u16) -> u64 {
    match routing.ends().get(end as usize) {
        Some(end) => end.iface.capacity,
        None => 0,
    }
}
