//! Entries of a router's book.
ghost use Rattle.std.specs.Prelude.{◌≡◌};

use rsvp_base::{EntryKey, Part};

/// The flags with which a reservation is handed to traffic control (RFC 2205, 3.8; RFC 2209, 2: E_Police, M_Police,
/// B_Police).
#[derive(Clone, Copy, Debug, Default, PartialEq, Eq)]
pub struct Police {
    /// A sender of the entry asked for policing at this node.
    pub e: bool,
    /// Senders are merged here into one reservation.
    pub m: bool,
    /// The reservation is smaller than, or incomparable with, another one that the same senders reach.
    pub b: bool,
}

/// An entry of an interface's book.
#[derive(Drop)]
pub struct Entry {
    pub key: EntryKey,
    pub part: Part,
    pub police: Police,
}

impl Entry {
    /// An equal entry.
    pub fn copy(&self) -> Entry
        ensures { result ≡ self.now }
    {
        Entry {
            key: self.key,
            part: self.part.copy(),
            police: self.police,
        }
    }
}
