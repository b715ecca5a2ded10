//! The topology of a network, as it is put together.
ghost use Rattle.std.specs.List.{list_all, list_any};
ghost use Rattle.tree_model.specs.Trees.{of_tree};
ghost use Rattle.tree_routing.specs.Found.{are_apart, is_free};
ghost use Rattle.std.specs.Prelude.{◌≡◌, ◌≢◌, ◌↔◌, ◌&&◌, ◌<◌, ◌≤◌, ◌+◌, length, map, [], ◌∷◌, ◌++◌, IsTrue, IsOk, IfOk, OnOk, OnErr};
ghost use Rattle.tree_model.specs.declared.hops.TreeHop.{TreeHop};
ghost use Rattle.tree_model.specs.Networks.{Net, node_of, ends_of, iface_of, link_of, owner};
ghost use Rattle.tree_model.specs.Valid.{IsValid};
ghost use Rattle.tree_routing.specs.Known.{net_of, vertex_at, vertex_before};
ghost use Rattle.tree_routing.specs.Answers.{no_net, TakesEnd, TakesLink, with_node, with_end, with_link, with_hop, Fits, HopAnswer, with_latency};

use crate::ask::{are_apart, are_free, has_tree, link_of, node_of, owner};
use crate::growing::{can_grow, know};
use crate::hop_err::HopErr;
use crate::known::Known;
use crate::least::check_loop;
use crate::levels::levels;
use crate::link::Link;
use crate::routing::Routing;
use crate::ways::{count_of, iface_of};
use rsvp_base::{Addr, NoMemory};
use std::alloc::Global;
use std::marker::Model;
use tree_model::{End, LinkHop, TreeHop};

/// A network that is put together: nodes, link ends, links, and for each group and source address the hops of a tree. Nodes
/// and ends are numbered from 0 in the order in which they are added. Contracts see the network; it is valid at every
/// moment: within its limits, its trees grown hop by hop, and without a closed chain.
#[derive(Drop)]
pub struct Topology {
    pub(crate) alloc: Global,
    pub(crate) nodes: u16,
    pub(crate) ends: Vec<End>,
    pub(crate) links: Vec<Link>,
    pub(crate) hops: Vec<Known>,
}

impl Model for Topology {
    ghost use Rattle.tree_model.specs.Networks.{Net};
    ghost use Rattle.tree_model.specs.Codes.{net_code};
    ghost use Rattle.tree_model.specs.Valid.{IsValid};
    ghost use Rattle.tree_routing.specs.Known.{net_of, AreKnown};

    ghost Value = { Net };

    ghost coded = { net_code };

    ghost view = { λ t. net_of t.nodes t.ends.items t.links.items t.hops.items };

    ghost invariant = { λ t. IsValid (net_of t.nodes t.ends.items t.links.items t.hops.items) × AreKnown t.ends.items t.hops.items };
}

impl Topology {
    /// A network without nodes. It takes no memory, so it is never refused.
    pub fn new(alloc: Global) -> Result<Topology, NoMemory>
        ensures empty { IfOk result (λ t. t ≡ no_net) }
        ensures ok { IsOk result }
    {
        Ok(Topology {
            alloc,
            nodes: 0,
            ends: Vec::new(alloc),
            links: Vec::new(alloc),
            hops: Vec::new(alloc),
        })
    }

    /// Whether there is room for another node: fewer than 256 are there.
    pub fn has_room_for_node(&self) -> bool
        ensures { IsTrue result ↔ (self.now.nodes < 256) }
    {
        self.nodes < 256
    }

    /// Adds a node, where there is room for one, and gives its number. It takes no memory, so it is never refused.
    pub fn add_node(&mut self) -> Result<u16, NoMemory>
        requires { self.old.nodes < 256 }
        ensures added { self.new ≡ with_node self.old }
        ensures number { IfOk result (λ number. number ≡ self.old.nodes) }
        ensures ok { IsOk result }
    {
        let number = self.nodes;
        self.nodes += 1;
        Ok(number)
    }

    /// The node that has the end of this address. `None` exactly where no end has it.
    pub fn owner(&self, address: Addr) -> Option<u16>
        ensures { result ≡ owner self.now.ends address }
    {
        owner(self.ends.as_slice(), address)
    }

    /// The node of an end; 0 where there is no such end.
    pub fn node_of(&self, end: u16) -> u16
        ensures { result ≡ node_of self.now.ends end }
    {
        node_of(self.ends.as_slice(), end)
    }

    /// The ends of links, by number.
    pub fn ends(&self) -> &[End]
        ensures { result.now ≡ self.now.ends }
    {
        self.ends.as_slice()
    }

    /// The number of an end among the interfaces of its node. The end is there.
    pub fn iface_of(&self, end: u16) -> u8
        requires { end < length self.now.ends }
        ensures { result ≡ iface_of self.now.ends end }
    {
        iface_of(self.ends.as_slice(), end)
    }

    /// Whether there is room for another end of a node: it has fewer than 16.
    pub fn has_room_for_end(&self, node: u16) -> bool
        ensures { IsTrue result ↔ (length (ends_of self.now.ends node) < 16) }
    {
        count_of(self.ends.as_slice(), node) < 16
    }

    /// Whether an end can be added: its node is there and has fewer than 16 ends, and no end has its address.
    pub fn takes_end(&self, end: &End) -> bool
        ensures { IsTrue result ↔ TakesEnd self.now end.now }
    {
        let ends = self.ends.as_slice();
        end.node < self.nodes
            && count_of(ends, end.node) < 16
            && owner(ends, end.iface.addr).is_none()
    }

    /// Adds an end that can be added, as the next interface of its node, and gives its number. `NoMemory`: there was no room
    /// for it; nothing changes then.
    pub fn add_end(&mut self, end: End) -> Result<u16, NoMemory>
        requires { TakesEnd self.old end }
        ensures ok { OnOk result (self.new ≡ with_end self.old end) }
        ensures number { IfOk result (λ number. number ≡ length self.old.ends) }
        ensures err { OnErr result (self.new ≡ self.old) }
    {
        let number = self.ends.len() as u16;
        if self.ends.push(end).is_err() {
            return Err(NoMemory);
        }
        Ok(number)
    }

    /// The latency of an end's interface, in microseconds, from now on.
    pub fn set_latency(&mut self, end: u16, latency: u32)
        requires { end < length self.old.ends }
        ensures { self.new ≡ with_latency self.old end latency }
    {
        self.ends[end as usize].iface.latency = latency;
    }

    /// Whether there is room for another link: there are fewer than 512.
    pub fn has_room_for_link(&self) -> bool
        ensures { IsTrue result ↔ (length self.now.links < 512) }
    {
        self.links.len() < 512
    }

    /// Whether an end is in a link.
    pub fn is_in_link(&self, end: u16) -> bool
        ensures { IsTrue result ↔ (link_of self.now.links end ≢ []) }
    {
        !link_of(self.links.as_slice(), end).is_empty()
    }

    /// Whether a link of these ends can be added: they are two to eight, are there, each of a node of its own, and in no
    /// link, and there are fewer than 512 links.
    pub fn takes_link_of(&self, ends: &[u16]) -> bool
        ensures { IsTrue result ↔ TakesLink self.now ends.now }
    {
        self.has_room_for_link_of(ends) && self.can_be_linked(ends)
    }

    /// Adds a link of these ends, where it can be added. `NoMemory`: there was no room for it; nothing changes then.
    pub fn add_link_of(&mut self, ends: &[u16]) -> Result<(), NoMemory>
        requires { TakesLink self.old ends.now }
        ensures ok { OnOk result (self.new ≡ with_link self.old ends.now) }
        ensures err { OnErr result (self.new ≡ self.old) }
    {
        if self.links.push(Link::of(ends)).is_err() {
            return Err(NoMemory);
        }
        Ok(())
    }

    /// Whether a link of these two ends can be added.
    pub fn takes_link(&self, one: u16, other: u16) -> bool
        ensures { IsTrue result ↔ TakesLink self.now (one ∷ other ∷ []) }
    {
        self.takes_link_of(&[one, other])
    }

    /// Adds a link of two ends, where it can be added. `NoMemory`: there was no room for it; nothing changes then.
    pub fn add_link(&mut self, one: u16, other: u16) -> Result<(), NoMemory>
        requires { TakesLink self.old (one ∷ other ∷ []) }
        ensures ok { OnOk result (self.new ≡ with_link self.old (one ∷ other ∷ [])) }
        ensures err { OnErr result (self.new ≡ self.old) }
    {
        self.add_link_of(&[one, other])
    }

    /// Whether there is room for another hop: all trees have fewer than 8,192 hops.
    pub fn has_room_for_hop(&self) -> bool
        ensures { IsTrue result ↔ (length self.now.hops < 8192) }
    {
        self.hops.len() < 8192
    }

    /// Whether the tree of a group and source has a hop.
    pub fn has_tree(&self, group: Addr, source: Addr) -> bool
        ensures { result ≡ list_any (of_tree group source) self.now.hops }
    {
        has_tree(self.hops.as_slice(), group, source)
    }

    /// Adds a hop, where there is room for one, to the tree of its group and source, whose root is the node that has the end
    /// of this address.
    ///
    /// `HopErr::NotTree`: exactly where the ends do not share a link, the tree has not reached the node of `from` or has
    /// reached that of `to`, or a hop of the tree goes out of another end of the link.
    /// `HopErr::Loop`: this is not so, and with the hop a chain of the group's hops is closed. It names the least hop that
    /// stands on a closed chain.
    /// `HopErr::NoMemory`: the tree can grow by the hop, and there was no room for the hop, or for the check of the chains.
    /// Nothing changes after any of these.
    pub fn add_hop(&mut self, group: Addr, source: Addr, from: u16, to: u16) -> Result<(), HopErr>
        requires { length self.old.hops < 8192 }
        ensures ok { OnOk result (self.new ≡ with_hop self.old (record { group = group; source = source; hop = record { from = from; to = to } })) }
        ensures answer { HopAnswer self.old (record { group = group; source = source; hop = record { from = from; to = to } }) result }
        ensures err { OnErr result (self.new ≡ self.old) }
        ensures valid { IsValid self.old }
    {
        let hop = TreeHop {
            group,
            source,
            hop: LinkHop { from, to },
        };
        if !self.can_grow(&hop) {
            return Err(HopErr::NotTree);
        }
        let known = know(self.ends.as_slice(), self.hops.as_slice(), hop);
        match check_loop(self.alloc, self.hops.as_slice(), &known) {
            Ok(()) => {
                if self.hops.push(known).is_err() {
                    return Err(HopErr::NoMemory);
                }
                Ok(())
            }
            Err(why) => Err(why),
        }
    }

    /// Closes the topology. `NoMemory`: there was no room for what the routing keeps beside it; the topology is gone.
    pub fn close(self) -> Result<Routing, NoMemory>
        ensures { IfOk result (λ routing. routing ≡ self) }
    {
        let levels = levels(self.alloc, self.hops.as_slice())?;
        Routing::of(
            self.alloc,
            self.nodes,
            self.ends,
            self.links,
            self.hops,
            levels.as_slice(),
        )
    }

    // Whether so many ends can be in one link, and there is room for another link.
    fn has_room_for_link_of(&self, ends: &[u16]) -> bool
        ensures { IsTrue result ↔ ((2 ≤ length ends.now) × (length ends.now ≤ 8) × (length self.now.links < 512)) }
    {
        ends.len() >= 2 && ends.len() <= 8 && self.links.len() < 512
    }

    // Whether these ends are there, in no link, and no two of them of one node.
    fn can_be_linked(&self, ends: &[u16]) -> bool
        ensures { result ≡ (list_all (is_free self.now.ends self.now.links) ends.now && are_apart self.now.ends ends.now) }
    {
        are_free(self.ends.as_slice(), self.links.as_slice(), ends)
            && are_apart(self.ends.as_slice(), ends)
    }

    // Whether the tree of the hop can grow by it.
    fn can_grow(&self, hop: &TreeHop) -> bool
        ensures { IsTrue result ↔ Fits self.now hop.now }
    {
        can_grow(
            self.ends.as_slice(),
            self.links.as_slice(),
            self.hops.as_slice(),
            hop,
        )
    }
}
