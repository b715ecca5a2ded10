//! The routing of a network.
ghost use Rattle.std.specs.Prelude.{◌≡◌, ◌↔◌, ◌==◌, not, ℕ, slice_get};
ghost use Rattle.std.specs.List.{filter};
ghost use Rattle.std.specs.Int.{bit_at};
ghost use Rattle.tree_model.specs.Networks.{node_of, peers};
ghost use Rattle.tree_model.specs.Ranks.{has_hop, longest};
ghost use Rattle.tree_model.specs.Trees.{tree, trees_of};
ghost use Rattle.tree_routing.specs.Order.{AreByRank};
ghost use Rattle.tree_routing.specs.Routes.{inward_iface, LeavesBy};

use crate::ask::{link_of, node_of};
use crate::group_hop::GroupHop;
use crate::in_order::{is_among, of_tree};
use crate::link::Link;
use crate::ranked::RankedHop;
use crate::ways::{hop_into, iface_of, ways_out};
use rsvp_base::Addr;
use std::alloc::Global;
use std::marker::Model;
use tree_model::{End, LinkHop, TreeHop};

/// A network whose topology is closed: where each tree comes into a node and leaves it. Contracts see the network, which is
/// valid: within its limits, its trees grown hop by hop, and without a closed chain. No call but `copy` and
/// `reroute` takes memory.
#[derive(Drop)]
pub struct Routing {
    pub(crate) alloc: Global,
    pub(crate) nodes: u16,
    pub(crate) ends: Vec<End>,
    pub(crate) links: Vec<Link>,
    // The hops of all trees, in the order in which they were added.
    pub(crate) hops: Vec<TreeHop>,
    // The length of the longest chain.
    pub(crate) chain: u16,
    // The hops of all groups, by rank, with their ranks and without.
    pub(crate) ranked: Vec<RankedHop>,
    pub(crate) order: Vec<GroupHop>,
    // The group and source of each tree, in order.
    pub(crate) trees: Vec<(Addr, Addr)>,
    // The hops of all trees, by group, source and hop.
    pub(crate) sorted: Vec<TreeHop>,
}

impl Model for Routing {
    ghost use Rattle.std.specs.Prelude.{◌≡◌, map};
    ghost use Rattle.tree_model.specs.Networks.{Net};
    ghost use Rattle.tree_model.specs.Codes.{net_code};
    ghost use Rattle.tree_model.specs.Ranks.{longest};
    ghost use Rattle.tree_model.specs.Valid.{IsValid};
    ghost use Rattle.tree_routing.specs.Known.{net_with};
    ghost use Rattle.tree_routing.specs.Order.{AreByRank, HaveRanks, group_hop_of};
    ghost use Rattle.tree_routing.specs.Routes.{AreInOrder};
    ghost use Rattle.tree_model.specs.Trees.{trees_of};

    ghost Value = { Net };

    ghost coded = { net_code };

    ghost view = { λ r. net_with r.nodes r.ends.items r.links.items r.hops.items };

    ghost invariant = { λ r. IsValid (net_with r.nodes r.ends.items r.links.items r.hops.items)
        × (r.chain ≡ longest (net_with r.nodes r.ends.items r.links.items r.hops.items))
        × (r.trees.items ≡ trees_of r.hops.items) × AreInOrder r.hops.items r.sorted.items
        × AreByRank (net_with r.nodes r.ends.items r.links.items r.hops.items) r.order.items
        × HaveRanks (net_with r.nodes r.ends.items r.links.items r.hops.items) r.ranked.items
        × (r.order.items ≡ map group_hop_of r.ranked.items) };
}

impl Routing {
    ghost use Rattle.tree_model.specs.Valid.{IsValid};

    /// How many nodes were added.
    pub fn nodes(&self) -> u16
        ensures nodes { result ≡ self.now.nodes }
        ensures valid { IsValid self.now }
    {
        self.nodes
    }

    /// The ends of links, by number.
    pub fn ends(&self) -> &[End]
        ensures ends { result.now ≡ self.now.ends }
        ensures valid { IsValid self.now }
    {
        self.ends.as_slice()
    }

    /// The node of an end; 0 where there is no such end.
    pub fn node_of(&self, end: u16) -> u16
        ensures { result ≡ node_of self.now.ends end }
    {
        node_of(self.ends.as_slice(), end)
    }

    /// The hops of all groups by rank, the length of the longest chain that begins with a hop: a hop of a group stands once,
    /// in however many trees it is, and behind each hop that follows it.
    pub fn by_rank(&self) -> &[GroupHop]
        ensures { AreByRank self.now result.now }
    {
        self.order.as_slice()
    }

    /// Whether the tree of a group and source has the hop.
    pub fn has_hop(&self, group: Addr, source: Addr, hop: LinkHop) -> bool
        ensures { result ≡ has_hop (tree self.now.hops group source) hop }
    {
        is_among(self.sorted.as_slice(), &TreeHop { group, source, hop })
    }

    /// The length of the longest chain of hops of a group; 0 where there is no hop.
    pub fn longest(&self) -> u32
        ensures { result ≡ longest self.now }
    {
        u32::from(self.chain)
    }

    /// The interface by which the tree of a group and source comes into a node. `None` exactly where no hop of the tree goes
    /// into it.
    pub fn inward(&self, node: u16, group: Addr, source: Addr) -> Option<u8>
        ensures { result ≡ inward_iface self.now node group source }
    {
        let hops = of_tree(self.sorted.as_slice(), group, source);
        let into = hop_into(self.ends.as_slice(), hops, node)?;
        Some(iface_of(self.ends.as_slice(), into))
    }

    /// The interfaces by which the tree of a group and source leaves a node: bit i stands for interface i.
    pub fn outward(&self, node: u16, group: Addr, source: Addr) -> u16
        ensures { (i : ℕ) → (bit_at result i ≡ 1) ↔ LeavesBy self.now node group source i }
    {
        let hops = of_tree(self.sorted.as_slice(), group, source);
        ways_out(self.ends.as_slice(), hops, node)
    }

    /// The group and source of the k-th tree that has a hop, by group and source, from 0. `None` exactly where k is not
    /// below their number.
    pub fn tree(&self, k: usize) -> Option<(Addr, Addr)>
        ensures { result ≡ slice_get (trees_of self.now.hops) k }
    {
        self.trees.get(k).copied()
    }

    /// The k-th other end of the link of an end, in order, from 0. `None` exactly where k is not below their number; an end
    /// in no link has none.
    pub fn far(&self, end: u16, k: usize) -> Option<u16>
        ensures { result ≡ slice_get (peers self.now.links end) k }
    {
        other_end(link_of(self.links.as_slice(), end), end, k)
    }
}

// The k-th of the ends that is not this one.
fn other_end(link: &[u16], end: u16, k: usize) -> Option<u16>
    ensures { result ≡ slice_get (filter (λ x. not (x == end)) link.now) k }
{
    let mut left = k;
    for other in link {
        if *other != end {
            if left == 0 {
                return Some(*other);
            }
            left -= 1;
        }
    }
    None
}
