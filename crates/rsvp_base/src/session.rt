//! Sessions and senders.
use crate::addr::Addr;

/// A multicast session (RFC 2205, 1.1 and A.1): its group, IP protocol and destination port.
#[derive(Clone, Copy, Debug, Default, PartialEq, Eq, PartialOrd, Ord, Hash)]
pub struct Session {
    pub group: Addr,
    pub proto: u8,
    pub port: u16,
}

/// A sender of a session (RFC 2205, 1.1, A.9 and A.10): its source address and port. A wildcard reservation names a
/// sender by its address alone, with port 0.
#[derive(Clone, Copy, Debug, Default, PartialEq, Eq, PartialOrd, Ord, Hash)]
pub struct Sender {
    pub addr: Addr,
    pub port: u16,
}
