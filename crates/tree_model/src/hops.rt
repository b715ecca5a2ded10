//! Ends and hops.
use rsvp_base::{Addr, Iface};

/// An end of a link: an interface of a node. Ends are numbered from 0 in the order in which they are added.
#[derive(Clone, Copy, Debug, PartialEq, Eq)]
pub struct End {
    /// The number of its node.
    pub node: u16,
    /// Its address, capacity and MTU.
    pub iface: Iface,
}

/// A hop: an ordered pair of ends of one link, by their numbers. Hops are ordered by the first end, then the second.
#[derive(Clone, Copy, Debug, PartialEq, Eq, PartialOrd, Ord, Hash)]
pub struct LinkHop {
    /// The end that it goes out of.
    pub from: u16,
    /// The end that it goes into.
    pub to: u16,
}

/// A hop of the tree of a group and a source address: the way of what the source sends to the group.
#[derive(Clone, Copy, Debug, PartialEq, Eq)]
pub struct TreeHop {
    pub group: Addr,
    pub source: Addr,
    pub hop: LinkHop,
}
