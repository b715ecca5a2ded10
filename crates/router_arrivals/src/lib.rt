//! What messages, local senders and local receivers do to the tables of a router, before its neighbours are told, and what is left
//! over in them (RFC 2205, 3.11.1; RFC 2209, 2: PATH, RESV, PATH TEAR and RESV TEAR MESSAGE ARRIVES).
//!
//! Each call is what the rule of a router says: each refusal, the facts afterwards, the errors in the order in which they go back, what
//! is heard and what is to be confirmed; the book is that of the facts. No call takes memory. It stands on `router_aging`.
#![tactic(auto)]

mod asking;
mod learning;
mod matching;
mod names;
mod resvs;
mod stale_facts;
mod styles;
mod taking;
mod tearing;
mod telling;
mod withdrawal;

pub use asking::{drop_wants, put_wants};
pub use learning::{advertise_sender, keep_path, keep_sender, learn_path, renew_path, repeat_path};
pub use resvs::{take_resvs, tear_resvs};
pub use stale_facts::{leave_resv, leave_wall};
pub use taking::{Answer, asker_of, take_resv};
pub use tearing::tear_resv;
pub use telling::tell_refusals;
pub use withdrawal::{drop_path, drop_sender, has_path_by, path_by};
