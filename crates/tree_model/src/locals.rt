//! What the hosts of a network ask of it: who sends, and who wants what.
use rsvp_base::{Part, Sender, Session, StyleKind};

/// A sender at its node.
#[derive(Clone, Copy, Debug, PartialEq, Eq)]
pub struct LocalSender {
    /// The number of the node.
    pub node: u16,
    pub session: Session,
    pub sender: Sender,
}

/// A reservation wanted at a node. A wildcard one lists no senders: it is for all of the session.
#[derive(Drop)]
pub struct LocalWant {
    /// The number of the node.
    pub node: u16,
    pub session: Session,
    pub style: StyleKind,
    pub part: Part,
}
