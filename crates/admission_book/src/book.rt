//! The book of a node.
ghost use Rattle.std.specs.Prelude.{◌≡◌, ◌↔◌, ◌<◌, length, IsTrue, IsSome, IfOk, OnOk, OnErr, MatchResult, false, slice_get};
ghost use Rattle.rsvp_base.specs.Table.{empty, get, has, size};
ghost use Rattle.admission_book.specs.Book.{entries_on, changed_at};
ghost use Rattle.admission_book.specs.Charges.{charges, refusal};
ghost use Rattle.admission_book.specs.Within.{IsWithin};
ghost use Rattle.admission_book.specs.Rows.{IsRising};

use crate::admit::admit;
use crate::refused::Refused;
use crate::row::Row;
use crate::rows::{change, charge_at, nth};
use rsvp_base::sorted::search;
use rsvp_base::{EntryKey, Flow, Iface, NoMemory};
use std::alloc::Global;
use std::marker::Model;

const ROOM: usize = 3072;

/// What the interfaces of a node have promised: a flow for each entry. Contracts see the list of the interfaces, which
/// are numbered from 0, and a finite map from interface and key to flow. At every moment the rates r of an interface's
/// entries sum to at most its capacity, and no entry has packets larger than its interface's MTU.
#[derive(Drop)]
pub struct Book {
    ifaces: Vec<Iface>,
    // What each interface's entries charge it, in bytes per second.
    held: Vec<u64>,
    rows: Vec<Row>,
    ghost rising: { IsRising rows.items },
}

impl Model for Book {
    ghost use Rattle.std.specs.Prelude.{◌≤◌, ℕ, vec_capacity};
    ghost use Rattle.admission_book.specs.Book.{Bookings, bookings_code};
    ghost use Rattle.admission_book.specs.Rows.{entries_of};
    ghost use Rattle.admission_book.specs.Within.{IsKept};

    ghost Value = { Bookings };

    ghost coded = { bookings_code };

    ghost view = { λ b. record { ifaces = b.ifaces.items; entries = entries_of b.rows.items b.rising } };

    ghost invariant = { λ b. IsKept (record { ifaces = b.ifaces.items; entries = entries_of b.rows.items b.rising }) b.held.items × (3072 ≤ vec_capacity b.rows) };
}

impl Book {
    /// A book of these interfaces, without entries. It has room for 3,072 entries, and takes no memory later.
    /// `NoMemory`: the room could not be had.
    pub fn open(alloc: Global, ifaces: &Vec<Iface>) -> Result<Book, NoMemory>
        ensures { IfOk result (λ b. b ≡ record { ifaces = ifaces.now.items; entries = empty }) }
    {
        let copy = ifaces.as_slice().to_vec(alloc)?;
        let held = vec![in alloc; 0u64; ifaces.len()]?;
        let rows = Vec::with_capacity(alloc, ROOM)?;
        Ok(Book {
            ifaces: copy,
            held,
            rows,
        })
    }

    /// The interfaces, by their numbers.
    pub fn ifaces(&self) -> &[Iface]
        ensures { result.now ≡ self.now.ifaces }
    {
        self.ifaces.as_slice()
    }

    /// Whether there is room for another entry: fewer than 3,072 are there.
    pub fn has_room(&self) -> bool
        ensures { IsTrue result ↔ (size self.now.entries < 3072) }
    {
        self.rows.len() < ROOM
    }

    /// Puts the flow `now` in the place of the interface's entry of this key, if there is one, and takes that entry out
    /// where `now` is `None`, which is never refused. The interface is one of the book's, and for a new entry the book has
    /// fewer than 3,072.
    ///
    /// `Refused::Mtu`: the flow's largest packet, `most`, is larger than the interface's MTU.
    /// `Refused::Rate`: this is not so, and the flow's rate, `want`, is more than the interface's capacity less the rates
    /// of its other entries, `free`. What the entry had before does not count.
    /// Nothing changes after either.
    pub fn try_change(&mut self, iface: u8, key: EntryKey, now: Option<Flow>) -> Result<(), Refused>
        requires exists { iface < length self.old.ifaces }
        requires room { IsSome now → has self.old.entries (iface, key) ≡ false → size self.old.entries < 3072 }
        ensures ok { OnOk result (self.new ≡ record self.old { entries = changed_at self.old.entries iface key now }) }
        ensures cause { MatchResult result (λ _. refusal self.old iface key now ≡ None) (λ why. refusal self.old iface key now ≡ Some why) }
        ensures err { OnErr result (self.new ≡ self.old) }
    {
        let number = iface as usize;
        let on = self.ifaces[number];
        let place = search(self.rows.as_slice(), &(iface, key));
        let others = self.held[number] - charge_at(self.rows.as_slice(), place);
        let sum = admit(&on, others, &now)?;
        change(&mut self.rows, place, iface, key, now);
        self.held[number] = sum;
        Ok(())
    }

    /// What the interface's entries charge it together: the sum of their rates r, in bytes per second. It is kept in
    /// place, and at most the interface's capacity.
    pub fn held(&self, iface: u8) -> u64
        ensures sum { result ≡ charges self.now.entries iface }
        ensures within { IsWithin self.now }
    {
        self.held.get(iface as usize).copied().unwrap_or(0)
    }

    /// The flow of the interface's entry of this key. `None` exactly where there is no such entry.
    pub fn entry(&self, iface: u8, key: &EntryKey) -> Option<Flow>
        ensures flow { result ≡ get self.now.entries (iface, key.now) }
        ensures within { IsWithin self.now }
    {
        let place = search(self.rows.as_slice(), &(iface, *key)).ok()?;
        Some(self.rows[place].flow)
    }

    /// The k-th entry of the interface by session, style and unit, from 0. `None` exactly where k is not below their
    /// number.
    pub fn at(&self, iface: u8, k: usize) -> Option<(EntryKey, Flow)>
        ensures entry { result ≡ slice_get (entries_on self.now.entries iface).rows k }
        ensures within { IsWithin self.now }
    {
        nth(self.rows.as_slice(), iface, k)
    }
}
