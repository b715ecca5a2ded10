//! What a node tells others: Paths and PathTears of a sender, ResvTears and Resvs toward a previous hop.
//!
//! Messages go to an outbox of the caller, one after another; nothing waits here. Each call puts exactly the sends of the
//! rule of a router there, in their order. It stands on the tables of a node and on the rules.
#![tactic(auto)]

mod offered;
mod paths;
mod renewal;
mod via;

pub use offered::{Offered, is_same_flow};
pub use paths::{tell_gone, tell_gone_ways, tell_new, tell_new_ways, tell_path_tears, tell_paths};
pub use renewal::{Renewal, tell_renewal};
pub use via::{name_of, upstream};
