//! The routers of a network.
ghost use Rattle.std.specs.Prelude.{◌≡◌, ◌≤◌, IfOk, map};
ghost use Rattle.stale_state.specs.AtNodes.{list_of};
ghost use Rattle.live_router.specs.SeenNode.{seen_node};
ghost use Rattle.network_model.specs.Runs.{Plan};
ghost use Rattle.network_replay.specs.Opening.{AreFirst, ArePlaced};
ghost use Rattle.stale_state.specs.Fit.{AreFitAll};
ghost use Rattle.live_router.specs.Leaving.{IsOpened};

use crate::leaving::left_at;
use crate::live_router::LiveRouter;
use crate::place::config_at;
use rsvp_base::NoMemory;
use stale_state::LeftOver;
use std::alloc::Global;
use tree_routing::Routing;

/// The routers of a network before anything happened, one for each node: each stands where the network has it, with a route for
/// each tree, and keeps what is left over at it. `quarter` is a quarter of the refresh period, in milliseconds, which is at most
/// a minute. Each fact lives no longer than one that was just refreshed at its node, and has the shape of one.
/// `NoMemory`: there was no room for them.
pub fn open_routers(
    alloc: Global,
    quarter: u32,
    routing: &Routing,
    left: &[LeftOver],
) -> Result<Vec<LiveRouter>, NoMemory>
    requires long { 1 ≤ quarter }
    requires short { quarter ≤ 15000 }
    requires fit { AreFitAll quarter routing.now left.now }
    ensures placed { IfOk result (λ v. ArePlaced quarter routing.now (map seen_node.place v.items)) }
    ensures first { IfOk result (λ v. (p : Plan) → p.quarter ≡ quarter → p.net ≡ routing.now → p.stale ≡ list_of left.now → AreFirst seen_node p v.items) }
{
    let mut routers = Vec::new(alloc);
    for node in 0..routing.nodes() {
        let router = open_at(alloc, quarter, routing, node, left)?;
        routers.push(router)?;
    }
    Ok(routers)
}

// The router of a node. `NoMemory`: there was no room for it.
fn open_at(
    alloc: Global,
    quarter: u32,
    routing: &Routing,
    node: u16,
    left: &[LeftOver],
) -> Result<LiveRouter, NoMemory>
    requires long { 1 ≤ quarter }
    requires short { quarter ≤ 15000 }
    requires fit { AreFitAll quarter routing.now left.now }
    ensures { IfOk result (IsOpened quarter routing.now (list_of left.now) node) }
{
    let config = config_at(alloc, quarter, routing, node)?;
    let mut router = LiveRouter::open(alloc, config)?;
    left_at(&mut router, node, left);
    Ok(router)
}
