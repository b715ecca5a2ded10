//! What a node keeps beside its soft state: the local senders and receivers, which stay until they are told to go, and the
//! countdowns of its sessions to their next refresh (RFC 2205, 3.7 and 3.11).
//!
//! Each is a finite map by its keys, in rows in the order of keys. Memory is taken when one is opened, and never later.
#![tactic(auto)]

mod countdowns;
mod fired;
mod insert;
mod senders;
mod sizes;
mod wants;

pub use countdowns::{Countdown, Countdowns};
pub use fired::Fired;
pub use senders::{LocalSender, LocalSenders};
pub use wants::{LocalWant, LocalWants};
