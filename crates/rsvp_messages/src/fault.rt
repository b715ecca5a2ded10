//! Why bytes are no message.
use crate::message::Kind;
use rsvp_base::{Hop, Sender, Session, StyleKind};
use rsvp_objects::ObjErr;

/// The first fault of bytes that spell no message. A place counts bytes from the start of the message.
#[derive(Clone, Copy, Debug, PartialEq, Eq)]
pub enum Fault {
    /// More bytes than a message may have.
    TooLong,
    /// Fewer bytes than the common header has.
    Short,
    /// The header's version is not 1.
    Version,
    /// The header's length is not the number of bytes.
    Length,
    /// The checksum is there and wrong.
    Checksum,
    /// The header's message type is none of 1 to 7.
    Kind,
    /// An object's own fault, with its place.
    Object(ObjErr),
    /// The object at this place may not stand there.
    Order(u16),
    /// The object at this place stands a second time, or names a sender a second time.
    Repeated(u16),
    /// An object of this class is needed and not there.
    Missing(u8),
}

/// What could be read of a faulty message: of each kind of object the first that has no fault of its own. With it the
/// fault can be answered (RFC 2205, 3.10).
#[derive(Clone, Copy, Debug, Default, PartialEq, Eq)]
pub struct Hint {
    pub session: Option<Session>,
    pub hop: Option<Hop>,
    pub style: Option<StyleKind>,
    pub sender: Option<Sender>,
}

/// Why bytes spell no message.
#[derive(Clone, Copy, Debug, PartialEq, Eq)]
pub struct MsgErr {
    pub fault: Fault,
    /// The kind of the message. `None` exactly where the fault is one of the header.
    pub kind: Option<Kind>,
    pub hint: Hint,
}
