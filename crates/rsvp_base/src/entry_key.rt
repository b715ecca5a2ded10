//! Keys of entries.
use crate::session::Session;
use crate::style::{StyleKind, Unit};

/// What an entry of an interface is for (RFC 2205, 1.3): a session, a style of reservation, and the unit of it. Keys stand
/// in this order.
#[derive(Clone, Copy, Debug, PartialEq, Eq, PartialOrd, Ord, Hash)]
pub struct EntryKey {
    pub session: Session,
    pub style: StyleKind,
    pub unit: Unit,
}
