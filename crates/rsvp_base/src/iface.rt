//! Interfaces.
use crate::addr::Addr;

/// An interface of a node, as admission control and an ADSPEC see it (RFC 2205, 1; RFC 2215, 3.3 to 3.5).
#[derive(Clone, Copy, Debug, PartialEq, Eq)]
pub struct Iface {
    /// Its IPv4 address.
    pub addr: Addr,
    /// How much all its reservations together may take, in bytes per second.
    pub capacity: u64,
    /// The largest packet that it sends, in bytes.
    pub mtu: u32,
    /// The least latency of a packet on its way to the next node, in microseconds; 2^32 - 1 where it is not known.
    pub latency: u32,
}
