//! Why a hop, or a tree, is refused.
use rsvp_base::Addr;

/// Why a hop, or a tree in the place of another, is refused.
#[derive(Clone, Copy, Debug, PartialEq, Eq)]
pub enum HopErr {
    /// The tree of its group and source cannot grow by it: its ends do not share a link, the tree has not yet reached the
    /// node that it goes out of, it has reached the node that it goes into, or another end of the link sends for the tree.
    /// Of a tree: its hops, one by one, do not grow it.
    NotTree,
    /// Its tree can grow by it, but then a chain of the group's hops is closed, so that a shared reservation could circle.
    /// The least hop that stands on a closed chain is named by the numbers of its ends.
    Loop { group: Addr, from: u16, to: u16 },
    /// Memory ran out. A hop is refused so only where its tree can grow by it.
    NoMemory,
}
