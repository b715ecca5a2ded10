//! A topology is closed.
ghost use Rattle.std.specs.Prelude.{◌≡◌, IfOk};
ghost use Rattle.tree_model.specs.Valid.{IsValid};
ghost use Rattle.tree_routing.specs.Known.{net_of, AreKnown};
ghost use Rattle.tree_routing.specs.Levels.{levels};

use crate::in_order::in_order;
use crate::keys::trees_of;
use crate::known::Known;
use crate::levels::highest;
use crate::link::Link;
use crate::order::by_level;
use crate::ranked::group_hops;
use crate::replacing::plain;
use crate::routing::Routing;
use rsvp_base::NoMemory;
use std::alloc::Global;
use tree_model::End;

impl Routing {
    /// The routing of a network that is valid, where these are the levels of its hops. `NoMemory`: there was no room for what
    /// it keeps beside the network.
    pub(crate) fn of(
        alloc: Global,
        nodes: u16,
        ends: Vec<End>,
        links: Vec<Link>,
        hops: Vec<Known>,
        lifted: &[u16],
    ) -> Result<Routing, NoMemory>
        requires valid { IsValid (net_of nodes ends.items links.items hops.items) }
        requires known { AreKnown ends.items hops.items }
        requires levels { lifted.now ≡ levels hops.items }
        ensures { IfOk result (λ routing. routing ≡ net_of nodes ends.items links.items hops.items) }
    {
        let chain = highest(lifted, hops.as_slice());
        let ranked = by_level(alloc, hops.as_slice(), lifted, chain)?;
        let order = group_hops(alloc, ranked.as_slice())?;
        let all = plain(alloc, hops.as_slice())?;
        let trees = trees_of(alloc, all.as_slice())?;
        let sorted = in_order(alloc, all.as_slice())?;
        Ok(Routing {
            alloc,
            nodes,
            ends,
            links,
            hops: all,
            chain,
            ranked,
            order,
            trees,
            sorted,
        })
    }
}
