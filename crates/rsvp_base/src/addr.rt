//! Addresses.

/// An IPv4 address, as the number that its four bytes are in network byte order.
#[derive(Clone, Copy, Debug, Default, PartialEq, Eq, PartialOrd, Ord, Hash)]
pub struct Addr(pub u32);
