//! Networks, put together from lists.
use rsvp_base::{Addr, Iface};
use std::alloc::Global;
use tree_routing::{End, Routing, Topology};

/// The group of most trees.
pub const GROUP: Addr = Addr(0xef01_0101);

// The end of this address at a node.
fn end(node: u16, addr: u32) -> End {
    End {
        node,
        iface: Iface {
            addr: Addr(addr),
            capacity: 10_000,
            mtu: 1500,
            latency: 0,
        },
    }
}

/// So many nodes, with these ends and links.
pub fn with_ends(
    alloc: Global,
    nodes: u16,
    ends: &[(u16, u32)],
    links: &[(u16, u16)],
) -> Option<Topology> {
    let mut net = Topology::new(alloc).ok()?;
    for _ in 0..nodes {
        if !net.has_room_for_node() {
            return None;
        }
        net.add_node().ok()?;
    }
    for (node, addr) in ends {
        let end = end(*node, *addr);
        if !net.takes_end(&end) {
            return None;
        }
        net.add_end(end).ok()?;
    }
    for (one, other) in links {
        if !net.takes_link(*one, *other) {
            return None;
        }
        net.add_link(*one, *other).ok()?;
    }
    Some(net)
}

/// The routing by these hops: a hop as its group, source and ends.
pub fn routing(mut net: Topology, hops: &[(u32, u32, u16, u16)]) -> Option<Routing> {
    for (group, source, from, to) in hops {
        if !net.has_room_for_hop() {
            return None;
        }
        net.add_hop(Addr(*group), Addr(*source), *from, *to).ok()?;
    }
    net.close().ok()
}
