//! A tree of a routing in the place of another.
ghost use Rattle.std.specs.Prelude.{◌≡◌, ◌↔◌, ◌≤◌, List, count_by, length, IsTrue, IfOk};
ghost use Rattle.std.specs.List.{filter};
ghost use Rattle.tree_model.specs.Networks.{Net};
ghost use Rattle.tree_model.specs.Valid.{IsValid};
ghost use Rattle.tree_routing.specs.Known.{plain, AreKnown};
ghost use Rattle.tree_routing.specs.Levels.{levels};
ghost use Rattle.tree_routing.specs.Order.{AreRankedHops};
ghost use Rattle.tree_routing.specs.Reroutes.{is_other, part, rerouted, with_hops, RerouteAnswer, StayOthers};
ghost use Rattle.tree_model.specs.Trees.{of_group};
ghost use Rattle.tree_model.specs.declared.hops.TreeHop.{TreeHop as ATreeHop};

use crate::ask::is_of_tree;
use crate::chains::closed_hop;
use crate::hop_err::HopErr;
use crate::keys::put_tree;
use crate::known::Known;
use crate::levels::{highest, levels};
use crate::order::by_level;
use crate::ranked::{RankedHop, group_hops, largest_rank, woven};
use crate::rebuilding::with_tree;
use crate::replacing::{moved, moved_in_order};
use crate::routing::Routing;
use rsvp_base::{Addr, NoMemory};
use tree_model::{LinkHop, TreeHop};

impl Routing {
    /// Whether there is room for these hops as the tree of a group and source, in place of the hops that it has: all trees have at
    /// most 8,192 hops then.
    pub fn has_room_for_tree(&self, group: Addr, source: Addr, hops: &[LinkHop]) -> bool
        ensures { IsTrue result ↔ (length (rerouted self.now group source hops.now).hops ≤ 8192) }
    {
        hops.len() <= 8192 && other_hops(self.hops.as_slice(), group, source) + hops.len() <= 8192
    }

    /// The routing with these hops as the tree of a group and source, in place of the hops that it has. All other trees stay.
    ///
    /// `HopErr::NotTree`: the hops, one by one, do not grow a tree from the node that has the end of the source.
    /// `HopErr::Loop`: they do, and with them a chain of the group's hops is closed. It names the least hop that stands on a
    /// closed chain. `HopErr::NoMemory`: there was no room for the routing, or for the checks.
    pub fn reroute(&self, group: Addr, source: Addr, hops: &[LinkHop]) -> Result<Routing, HopErr>
        requires { length (rerouted self.now group source hops.now).hops ≤ 8192 }
        ensures ok { IfOk result (λ r. r ≡ rerouted self.now group source hops.now) }
        ensures answer { RerouteAnswer self.now group source hops.now result }
    {
        let known = with_tree(
            self.alloc,
            self.ends.as_slice(),
            self.links.as_slice(),
            self.hops.as_slice(),
            group,
            source,
            hops,
        )?;
        let Ok(levels) = levels(self.alloc, known.as_slice()) else {
            return Err(HopErr::NoMemory);
        };
        let Ok(closed) = closed_hop(self.alloc, known.as_slice(), levels.as_slice(), group) else {
            return Err(HopErr::NoMemory);
        };
        if let Some(hop) = closed {
            return Err(HopErr::Loop {
                group,
                from: hop.from,
                to: hop.to,
            });
        }
        self.rerouted(group, source, hops, known.as_slice(), levels.as_slice())
            .map_err(|_| HopErr::NoMemory)
    }

    // The routing with these hops as the tree of a group and source, where this is what is kept of the hops of the group then, and
    // their levels.
    fn rerouted(
        &self,
        group: Addr,
        source: Addr,
        tree: &[LinkHop],
        known: &[Known],
        lifted: &[u16],
    ) -> Result<Routing, NoMemory>
        requires valid { IsValid (rerouted self.now group source tree.now) }
        requires part { plain known.now ≡ (part group (rerouted self.now group source tree.now)).hops }
        requires known { AreKnown self.now.ends known.now }
        requires levels { lifted.now ≡ levels known.now }
        ensures { IfOk result (λ r. r ≡ rerouted self.now group source tree.now) }
    {
        let ranked = self.ranks_with(group, known, lifted)?;
        let order = group_hops(self.alloc, ranked.as_slice())?;
        let hops = moved(self.alloc, self.hops.as_slice(), group, source, tree)?;
        let sorted = moved_in_order(self.alloc, self.sorted.as_slice(), group, source, tree)?;
        let mut trees = self.trees.as_slice().to_vec(self.alloc)?;
        put_tree(&mut trees, (group, source), !tree.is_empty())?;
        let ends = self.ends.as_slice().to_vec(self.alloc)?;
        let links = self.links.as_slice().to_vec(self.alloc)?;
        let chain = largest_rank(ranked.as_slice());
        Ok(Routing {
            alloc: self.alloc,
            nodes: self.nodes,
            ends,
            links,
            hops,
            chain,
            ranked,
            order,
            trees,
            sorted,
        })
    }

    // The hops of all groups by rank, with their ranks, where this is what is kept of the hops of a group then, and their levels.
    fn ranks_with(
        &self,
        group: Addr,
        known: &[Known],
        lifted: &[u16],
    ) -> Result<Vec<RankedHop>, NoMemory>
        requires known { AreKnown self.now.ends known.now }
        requires levels { lifted.now ≡ levels known.now }
        ensures { (rs : List ATreeHop) → IsValid (with_hops self.now rs) → StayOthers group self.now.hops rs
            → plain known.now ≡ filter (of_group group) rs → IfOk result (λ ranked. AreRankedHops (with_hops self.now rs) ranked.items) }
    {
        let most = highest(lifted, known);
        let mine = by_level(self.alloc, known, lifted, most)?;
        let ranked = woven(self.alloc, self.ranked.as_slice(), group, mine.as_slice())?;
        Ok(ranked)
    }
}

// How many hops other trees have.
fn other_hops(hops: &[TreeHop], group: Addr, source: Addr) -> usize
    requires { length hops.now ≤ 8192 }
    ensures count { result ≡ count_by (is_other group source) hops.now }
    ensures few { result ≤ 8192 }
{
    hops.iter()
        .filter(|hop| !is_of_tree(hop, group, source))
        .count()
}
