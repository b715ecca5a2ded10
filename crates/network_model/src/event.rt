//! What happens to a network.

use crate::local_call::LocalCall;
use rsvp_base::Addr;
use tree_model::LinkHop;

/// What happens to a network. Places in flight count from 1. What is to happen at a node, an end or a place that is not there
/// does nothing.
#[derive(Drop)]
pub enum Event {
    /// An application asks something of a node. A refusal changes nothing.
    Local {
        node: u16,
        call: LocalCall,
    },
    /// Time passes, in milliseconds.
    Wait {
        ms: u32,
    },
    /// So many passes: in each, what is in flight at its start is delivered in order.
    Pass {
        times: u32,
    },
    /// The datagram at a place is delivered.
    Deliver {
        place: u32,
    },
    /// The datagram at a place is lost.
    Lose {
        place: u32,
    },
    /// The datagram at a place is put in flight once more.
    Again {
        place: u32,
    },
    /// A node forgets all but its local senders and wants.
    Clear {
        node: u16,
    },
    /// So many rounds, each of four times half a period and a pass.
    Rounds {
        times: u32,
    },
    /// Whether deliveries are traced from now on.
    Trace {
        on: bool,
    },
    /// The books are reported: of an end, or of all.
    Report {
        end: Option<u16>,
    },
    /// The books of all ends are reported with their policing flags.
    Flags,
    /// What the paths offer is reported, of all ends: each path that came there, and was told of.
    Adverts,
    /// Bytes are put in flight to an end, with a destination.
    Inject {
        end: u16,
        dst: Addr,
        bytes: Vec<u8>,
    },
    /// These hops are the tree of the group and source from now on. A network is only asked for a tree that can be: where the
    /// hops do not grow one from the node of the source, close a chain of the group's hops, or are too many beside those of the
    /// other trees (8,192 together), this is refused as where memory ran out.
    Reroute {
        group: Addr,
        source: Addr,
        hops: Vec<LinkHop>,
    },
}
