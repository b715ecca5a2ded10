//! Hops.
use crate::addr::Addr;

/// A neighbour as it names itself (RFC 2205, 3.1.2 and A.2): the address of the interface that it sent through, and its
/// logical interface handle, which the neighbour that answers gives back.
#[derive(Clone, Copy, Debug, Default, PartialEq, Eq, PartialOrd, Ord, Hash)]
pub struct Hop {
    pub addr: Addr,
    pub handle: u32,
}
