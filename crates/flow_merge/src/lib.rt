//! The order of flows, their join and meet, and which requests a refused flow blockades.
//!
//! A flow is seen as its token bucket. Each call is exact, and the calls form a lattice in which a flow without a peak
//! rate has the largest one: the laws stand in `laws`. No call takes memory.
#![tactic(auto)]

mod blockade;
pub mod laws;
mod order;

pub use blockade::blockades;
pub use order::{join, le, meet};
