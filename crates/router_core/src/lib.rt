//! A router: what it keeps, and what it does with each input. No bytes, no clock and no network are in it: messages come as
//! values, time passes by a call, and what it sends goes to an outbox of the caller.
//!
//! Each call is the rule of a router (`router_rules`): the facts after, what is heard, each refusal, and what is sent, in
//! order. A node takes each message, and bytes that spell none; local senders and receivers come and go at it; facts are left
//! over at it; time passes; its routes move; and it is cleared. A call that is refused leaves all as it was, and sends nothing.
//! The marks of local receivers that wish to hear are used as the rule uses them. Its book is that of its facts. Routes in any
//! order are put in the one that a node wants.
#![tactic(auto)]

mod adverts;
mod arriving;
mod booked;
mod clearing;
mod confirming;
mod errors;
mod node;
mod opening;
mod paths;
mod resvs;
mod routes;
mod routing;
mod senders;
mod stale;
mod telling;
mod waiting;
mod wants;

pub use node::Node;
pub use routes::{are_routes, sort_routes};
