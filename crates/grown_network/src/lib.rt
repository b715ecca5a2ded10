//! The network that a seed grows: a tree of 64 nodes, three sessions, one of each style, with four senders each, and what is wanted
//! at the nodes, all drawn from the words of the seed; and the summary of its run.
//!
//! Its plan is a definition. Laws: it is valid and what is asked of it fits, whatever the seed. `grow` makes it, and is refused for want
//! of memory alone; `put_summary` writes the summary. It stands on `network_model` and `network_demand`.
#![tactic(auto)]

mod asking;
mod comparing;
pub mod demand_laws;
mod growing;
mod grown;
mod hops;
mod hosts;
pub mod laws;
mod names;
mod nodes;
mod summary;
pub mod summary_laws;
mod words;

pub use asking::asked;
pub use comparing::is_demand;
pub use grown::{Grown, QUARTER, grow};
pub use hosts::{Wanted, flow_of, session_of};
pub use summary::{Booked, Summary, put_summary};
