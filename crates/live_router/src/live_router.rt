//! The router.
ghost use Rattle.std.specs.Prelude.{◌≡◌, IfOk};
ghost use Rattle.router_state.specs.Routes.{AreRoutes};
ghost use Rattle.router_state.specs.State.{no_state};
ghost use Rattle.live_router.specs.Bounded.{IsBounded};

use router_core::Node;
use router_rules::Route;
use router_state::Config;
use rsvp_base::NoMemory;
use std::alloc::Global;
use std::marker::Model;

/// A router of a network. Contracts see the state of its node, which is within bounds.
#[derive(Drop)]
pub struct LiveRouter {
    pub(crate) alloc: Global,
    pub(crate) node: Node,
    // Room for the routes that come next, as many as the node has.
    pub(crate) spare: Vec<Route>,
}

impl Model for LiveRouter {
    ghost use Rattle.router_state.specs.State.{State};
    ghost use Rattle.live_router.specs.Living.{IsLive};

    ghost Value = { State };

    ghost view = { λ r. r.node };

    ghost invariant = { λ r. IsLive r.node r.spare.items };
}

impl LiveRouter {
    /// A router without facts. It takes no memory later. `NoMemory`: the room could not be had.
    pub fn open(alloc: Global, mut config: Config) -> Result<LiveRouter, NoMemory>
        ensures { IfOk result (λ r. r ≡ no_state config) }
    {
        // The proof sees here that the period is not zero.
        let _quarter = config.quarter();
        let spare = room_for_routes(alloc, &mut config)?;
        let node = Node::open(alloc, config)?;
        Ok(LiveRouter { alloc, node, spare })
    }

    /// Where it stands.
    pub fn config(&self) -> &Config
        ensures is { result.now ≡ self.now.place }
        ensures bounded { IsBounded self.now }
    {
        self.node.config()
    }
}

// Room for as many routes as there are, which are in their order. `NoMemory`: there was none.
fn room_for_routes(alloc: Global, config: &mut Config) -> Result<Vec<Route>, NoMemory>
    ensures same { config.new ≡ config.old }
    ensures routed { AreRoutes config.old.routes }
    ensures room { IfOk result (λ v. v.items ≡ config.old.routes) }
{
    // The routes are seen while others are in their place.
    let routes = config.reroute(Vec::new(alloc));
    let spare = routes.as_slice().to_vec(alloc);
    let _ = config.reroute(routes);
    Ok(spare?)
}
