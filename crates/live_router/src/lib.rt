//! The router that a network in replay asks for: a node (`router_core`) whose facts are within bounds, so that each message that it
//! sends is proper; and the routers of a network before anything happened, with what is left over at them.
//!
//! `LiveRouter` is a `Router` of `network_replay`: each call is the rule of a router, for every clock. Laws: a node keeps its bounds at
//! each input. No call but `open` takes memory. It stands on `router_core`, `laws_bounds` and `network_replay`.
#![tactic(auto)]

pub mod laws;
mod leaving;
mod live_router;
mod network;
mod opens;
mod place;
mod router;
mod serves;
mod stale;

pub use leaving::left_at;
pub use live_router::LiveRouter;
pub use network::open_routers;
pub use place::config_at;
