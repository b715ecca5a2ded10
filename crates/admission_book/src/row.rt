//! Rows of a book.
use rsvp_base::{EntryKey, Flow, sorted};

/// An entry, as a book lists it.
#[derive(Clone, Copy, Debug, PartialEq, Eq)]
pub struct Row {
    pub iface: u8,
    pub key: EntryKey,
    pub flow: Flow,
}

impl sorted::Row for Row {
    ghost use Rattle.rsvp_base.specs.TokenBucket.{TokenBucket};
    ghost use Rattle.admission_book.specs.Rows.{as_entry};

    type Key = (u8, EntryKey);

    ghost Rest = { TokenBucket };

    ghost as_row = { as_entry };

    fn key(&self) -> (u8, EntryKey) {
        (self.iface, self.key)
    }
}
