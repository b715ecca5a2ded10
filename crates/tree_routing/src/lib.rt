//! The topology of a network, and the routing that comes of it: which hops the trees of a group have, and the check that
//! no chain of hops is closed.
//!
//! `Topology` takes nodes, link ends, links and hops one by one. A hop is refused exactly where its tree cannot grow by it,
//! or where it would close a chain of its group; a refusal changes nothing. `Routing` is a topology that is closed, and
//! answers where a tree comes into a node and leaves it; with a tree in the place of another it is a routing again, under the
//! same checks. What is said of both stands in `tree_model`.
#![tactic(auto)]

mod ask;
mod chains;
mod closing;
mod copying;
mod group_hop;
mod growing;
mod hop_err;
mod hop_faults;
mod in_order;
mod keys;
mod known;
mod least;
mod levels;
mod link;
mod link_ends;
mod marks;
mod order;
mod ranked;
mod rebuilding;
mod replacing;
mod rerouting;
mod routing;
mod topology;
mod ways;

pub use group_hop::GroupHop;
pub use hop_err::HopErr;
pub use hop_faults::HopFault;
pub use routing::Routing;
pub use topology::Topology;
pub use tree_model::{End, LinkHop, TreeHop};
