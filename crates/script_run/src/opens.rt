//! Routers that a network can be made of.
ghost use Rattle.std.specs.Prelude.{◌≡◌, ◌≤◌, IfOk, map};
ghost use Rattle.stale_state.specs.AtNodes.{list_of};
ghost use Rattle.stale_state.specs.Fit.{AreFitAll};
ghost use Rattle.script_grammar.specs.Runs.{Plan};
ghost use Rattle.network_replay.specs.Opening.{AreFirst, ArePlaced};

use network_replay::Router;
use rsvp_base::NoMemory;
use stale_state::LeftOver;
use std::alloc::Global;
use tree_routing::Routing;

/// Routers that a network can be made of.
pub trait Opens: Router + Drop {
    /// The routers of a network before anything happened, one for each node: each has the interfaces of its node, with a route
    /// for each tree, and keeps what is left over at it. `quarter` is a quarter of the refresh period, in milliseconds, which is at
    /// most a minute. Each fact lives no longer than one that was just refreshed at its node, and has the shape of one.
    /// `NoMemory`: there was no room for them.
    fn open_all(
        alloc: Global,
        quarter: u32,
        routing: &Routing,
        left: &[LeftOver],
    ) -> Result<Vec<Self>, NoMemory>
        requires long { 1 ≤ quarter }
        requires short { quarter ≤ 15000 }
        requires fit { AreFitAll quarter routing.now left.now }
        ensures placed { IfOk result (λ v. ArePlaced quarter routing.now (map Self.seen.place v.items)) }
        ensures first { IfOk result (λ v. (p : Plan) → p.quarter ≡ quarter → p.net ≡ routing.now → p.stale ≡ list_of left.now → AreFirst Self.seen p v.items) };
}
