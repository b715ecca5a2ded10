//! What the ends of a network's links owe when all is settled, and what `check` finds of it: what in its demands does not fit, who asks
//! for it, what starves since another style came late, and which senders and receivers meet nobody; and its refresh overhead (RFC 2205,
//! 3.7; RFC 2961 has the word): how many datagrams refresh all that its nodes keep, once it has settled.
//!
//! `demand` gives for each end the style merge (RFC 2205, 2.2) of what is wanted over the hops that go out of it. Wants are
//! computed once for each hop, in the order of ranks, so that those of the hops that follow are there. What is said of wants
//! and demands stands in `tree_model`.
//!
//! `find_all` looks at what hosts ask of a network: a misfit is found if and only if the demands do not fit (`DemandsFit` of
//! `tree_model`). Where a receiver asks is what its want by itself demands, so a want that asks nowhere is one that no sender
//! meets. What starves is told by the order in which nodes began to ask. `overhead` counts Paths by senders and ends, Resvs by
//! sessions, styles and hops: a number of the links, the trees, the senders and the wants alone (`specs/Overhead.antt`). What it bounds is
//! proved in `settle_refreshes`. Definitions stand in `specs/`.
#![tactic(auto)]

mod allowed;
mod asked;
mod askers;
mod charging;
mod clashing;
mod counting;
mod end_book;
mod ends;
mod findings;
mod fits;
mod hop_want;
mod idle;
mod kept;
mod late;
mod locals;
mod misfits;
mod owed;
mod paths;
mod resvs;
mod room;
mod sessions;
mod stray;
mod sums;
mod wants;

pub use allowed::can_ask;
pub use askers::Asker;
pub use counting::overhead;
pub use end_book::EndBook;
pub use ends::demand;
pub use findings::{Findings, find_all};
pub use hop_want::HopWant;
pub use late::{Begun, Starved, begin, quit};
pub use locals::Locals;
pub use misfits::Misfits;
pub use owed::Demand;
pub use rsvp_base::EntryKey;
pub use stray::{Why, why_stray};
pub use sums::{largest, sum_of_rates};
pub use tree_model::{LocalSender, LocalWant};
pub use tree_routing::{End, GroupHop, HopErr, LinkHop, Routing, Topology, TreeHop};
pub use wants::hop_wants;
