//! What time does to the tables of a router, and what a sender that goes does (RFC 2205, 3.7; RFC 2209, 2: PATH REFRESH): paths and
//! reservations that are not refreshed die, names of senders are forgotten, offers are refreshed, countdowns run out or stop.
//!
//! Afterwards the tables have the facts of the rule, no dead fact waits, and the book is that of the facts. Memory is taken when a
//! list is opened, and never later. It stands on `router_state`, `resv_admission` and `path_sends`.
#![tactic(auto)]

mod aging;
mod counting;
mod dead;
mod forgetting;
mod known;
pub mod laws;
mod lost;
mod lost_names;
mod lost_senders;
mod passing;
mod telling;

pub use aging::age_resvs;
pub use counting::{begin_all, is_counted, stop_uncounted, stop_unless, watch_all};
pub use dead::{DeadPath, DeadPaths, age_paths};
pub use forgetting::{forget_dead, forget_one};
pub use known::KnownSenders;
pub use lost::{LostHop, LostHops};
pub use lost_names::lost_name;
pub use lost_senders::forget_lost;
pub use passing::{age_all, forget_all};
pub use telling::{tell_dead, tell_fired, tell_refresh};
