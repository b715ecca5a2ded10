//! What is in flight, by number.

use crate::flights::put_flight;
use rsvp_base::NoMemory;
use std::alloc::Global;
use std::collections::VecDeque;

/// The datagrams in flight, in their order: for each its number and the end to which it goes.
#[derive(Drop)]
pub(crate) struct Flying {
    queue: VecDeque<(u64, u16)>,
    // How many there were.
    count: u64,
    // The numbers of those in flight, as they were written last.
    told: Vec<u64>,
    // Whether another is in flight since.
    has_changed: bool,
}

impl Flying {
    /// Nothing is in flight.
    pub(crate) fn new(alloc: Global) -> Flying {
        Flying {
            queue: VecDeque::new(alloc),
            count: 0,
            told: Vec::new(alloc),
            has_changed: false,
        }
    }

    /// How many are in flight.
    pub(crate) fn len(&self) -> usize {
        self.queue.len()
    }

    /// The number of the datagram at a place, from 0, and its end.
    pub(crate) fn at(&self, place: usize) -> Option<(u64, u16)> {
        self.queue.get(place).copied()
    }

    /// Takes the datagram at a place, from 0, away.
    pub(crate) fn take(&mut self, place: usize) -> Option<(u64, u16)> {
        self.has_changed = true;
        self.queue.remove(place)
    }

    /// One more is in flight, to this end. Its number is answered. `NoMemory`: there was no room for it.
    pub(crate) fn add(&mut self, end: u16) -> Result<u64, NoMemory> {
        let id = self.count;
        self.queue.push_back((id, end))?;
        self.count = self.count.saturating_add(1);
        self.has_changed = true;
        Ok(id)
    }

    // Whether other datagrams are in flight than was written last.
    fn is_news(&self) -> bool {
        if !self.has_changed {
            return false;
        }
        if self.told.len() != self.queue.len() {
            return true;
        }
        for (id, flying) in self.told.iter().zip(self.queue.iter()) {
            if *id != flying.0 {
                return true;
            }
        }
        false
    }

    // The numbers are those of what is in flight.
    fn number(&mut self) -> Result<(), NoMemory> {
        self.told.clear();
        for flying in &self.queue {
            self.told.push(flying.0)?;
        }
        self.has_changed = false;
        Ok(())
    }
}

/// Appends the numbers of what is in flight, where they are others than were written last.
pub(crate) fn put_flying(
    out: &mut Vec<u8>,
    clock: u64,
    flying: &mut Flying,
) -> Result<(), NoMemory> {
    if !flying.is_news() {
        flying.has_changed = false;
        return Ok(());
    }
    flying.number()?;
    put_flight(out, clock, flying.told.as_slice())
}
