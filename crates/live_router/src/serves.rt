//! A live router is what a stream drives.

use crate::live_router::LiveRouter;
use node_stream::{Place, Serves};
use router_state::Config;
use rsvp_base::NoMemory;
use std::alloc::Global;

impl Serves for LiveRouter {
    fn open_alone(alloc: Global, place: Place) -> Result<LiveRouter, NoMemory> {
        let Place {
            quarter,
            ifaces,
            routes,
        } = place;
        LiveRouter::open(alloc, Config::new(quarter, ifaces, routes))
    }
}
