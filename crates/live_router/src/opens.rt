//! Live routers are what a network of a script is made of.
use crate::live_router::LiveRouter;
use crate::network::open_routers;
use rsvp_base::NoMemory;
use script_run::Opens;
use stale_state::LeftOver;
use std::alloc::Global;
use tree_routing::Routing;

impl Opens for LiveRouter {
    fn open_all(
        alloc: Global,
        quarter: u32,
        routing: &Routing,
        left: &[LeftOver],
    ) -> Result<Vec<LiveRouter>, NoMemory> {
        open_routers(alloc, quarter, routing, left)
    }
}
