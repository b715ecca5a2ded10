//! The wires of a network.
ghost use Rattle.std.specs.Prelude.{◌≡◌, ◌<◌, IfOk, IfSome, MatchOption, None, Some, length, slice_get};
ghost use Rattle.tree_model.specs.Goals.{addr_of};
ghost use Rattle.tree_model.specs.Networks.{end_at, iface_of, peers};
ghost use Rattle.tree_model.specs.Valid.{IsValid};
ghost use Rattle.tree_model.specs.declared.hops.End.{End as AnEnd};

use crate::tables::{ends_by_node, few_ends, ifaces, peers_by_end};
use rsvp_base::{Addr, NoMemory};
use std::alloc::Global;
use std::marker::Model;
use tree_routing::Routing;

/// The ends and links of a network, found by number. Contracts see the network. No call but `open` takes memory.
#[derive(Drop)]
pub struct Wires {
    routing: Routing,
    // The ends of each node, in order: interface i is the i-th.
    by_node: Vec<Vec<u16>>,
    // The interface that each end is.
    ifaces: Vec<u8>,
    // The other ends of the link of each end, in order.
    across: Vec<Vec<u16>>,
}

impl Model for Wires {
    ghost use Rattle.std.specs.Prelude.{◌≡◌, map, length};
    ghost use Rattle.std.specs.List.{range_with_len};
    ghost use Rattle.tree_model.specs.Networks.{Net, ends_of, iface_of, peers};
    ghost use Rattle.tree_model.specs.Codes.{net_code};

    ghost Value = { Net };

    ghost coded = { net_code };

    ghost view = { λ w. w.routing };

    ghost invariant = { λ w. (map (λ v. v.items) w.by_node.items ≡ map (ends_of w.routing.ends) (range_with_len 0 w.routing.nodes))
        × (w.ifaces.items ≡ map (iface_of w.routing.ends) (range_with_len 0 (length w.routing.ends)))
        × (map (λ v. v.items) w.across.items ≡ map (peers w.routing.links) (range_with_len 0 (length w.routing.ends))) };
}

impl Wires {
    /// The wires of a network. `NoMemory`: there was no room for them.
    pub fn open(alloc: Global, routing: Routing) -> Result<Wires, NoMemory>
        ensures { IfOk result (λ w. w ≡ routing) }
    {
        let _few = few_ends(&routing);
        let by_node = ends_by_node(alloc, routing.ends(), routing.nodes())?;
        let ifaces = ifaces(alloc, routing.ends())?;
        let across = peers_by_end(alloc, &routing)?;
        Ok(Wires {
            routing,
            by_node,
            ifaces,
            across,
        })
    }

    /// The routing.
    pub fn routing(&self) -> &Routing
        ensures net { result.now ≡ self.now }
        ensures valid { IsValid self.now }
    {
        let _nodes = self.routing.nodes();
        &self.routing
    }

    /// Another routing over the same ends and links is in force from now on.
    pub fn set_routing(&mut self, routing: Routing)
        requires nodes { routing.nodes ≡ self.old.nodes }
        requires ends { routing.ends ≡ self.old.ends }
        requires links { routing.links ≡ self.old.links }
        ensures { self.new ≡ routing }
    {
        self.routing = routing;
    }

    /// The end that is an interface of a node. `None` exactly where the node has no such interface.
    pub fn end_at(&self, node: u16, iface: u8) -> Option<u16>
        ensures end { result ≡ end_at self.now.ends node iface }
        ensures inside { IfSome result (λ e. e < length self.now.ends) }
    {
        let _nodes = self.routing.nodes();
        let at = node as usize;
        if at < self.by_node.len() {
            nth(self.by_node[at].as_slice(), iface)
        } else {
            None
        }
    }

    /// The other ends of the link of an end.
    pub fn peers(&self, end: u16) -> &[u16]
        requires { end < length self.now.ends }
        ensures { result.now ≡ peers self.now.links end }
    {
        self.across[end as usize].as_slice()
    }

    /// The address of an end; 0.0.0.0 where there is no such end.
    pub fn addr_of(&self, end: u16) -> Addr
        ensures { result ≡ addr_of self.now end }
    {
        match self.routing.ends().get(end as usize) {
            Some(end) => end.iface.addr,
            None => Addr(0),
        }
    }

    /// The node of an end, and the number that the end has among its interfaces. `None` exactly where there is no such end.
    pub fn place_of(&self, end: u16) -> Option<(u16, u8)>
        ensures { MatchOption result (slice_get self.now.ends end ≡ None) (λ to. (e : AnEnd) × (slice_get self.now.ends end ≡ Some e) × (to.0 ≡ e.node) × (to.1 ≡ iface_of self.now.ends end)) }
    {
        let ends = self.routing.ends();
        let at = end as usize;
        if at < ends.len() {
            Some((ends[at].node, self.ifaces[at]))
        } else {
            None
        }
    }
}

// The k-th of a list of ends.
fn nth(ends: &[u16], k: u8) -> Option<u16>
    ensures { result ≡ slice_get ends.now k }
{
    ends.get(k as usize).copied()
}
