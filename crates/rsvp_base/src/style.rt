//! Reservation styles.
use crate::session::Sender;

/// A reservation style (RFC 2205, 1.3 and A.7), in the order in which a report lists them.
#[derive(Clone, Copy, Debug, PartialEq, Eq, PartialOrd, Ord, Hash)]
pub enum StyleKind {
    /// Wildcard-filter (WF): one reservation, shared by all senders.
    Wild,
    /// Fixed-filter (FF): a reservation of its own for each sender.
    Fixed,
    /// Shared-explicit (SE): one reservation, shared by the senders that it lists.
    Shared,
}

/// What one reservation of a session and style is for: all that it names together, or one sender of a fixed filter.
/// `One` comes before each `Of`, and these by their senders.
#[derive(Clone, Copy, Debug, Default, PartialEq, Eq, PartialOrd, Ord, Hash)]
pub enum Unit {
    /// The one unit of WF and of SE.
    #[default]
    One,
    /// A sender's unit of FF.
    Of(Sender),
}
