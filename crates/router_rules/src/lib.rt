//! The rules of a router, as definitions: what it keeps, what each input does to it, and what it then sends.
//!
//! `specs/` states, in terms of RFC 2205 and RFC 2209, the facts of a node as finite maps with moments of death, what
//! follows from them, and the rule of each input. A router's code is proved to be these rules, and what is proved of a
//! network is proved of them. Here stand the types in which a router answers. Worked rows stand in `router_examples`, and the
//! laws of the definitions in `laws_bounds`.
#![tactic(auto)]

mod advert;
mod answers;
pub mod bounds;
mod entry;
pub mod fronts;
mod outbox;
mod route;

pub use advert::Advert;
pub use answers::{Heard, LocalErr, StaleErr, Why};
pub use entry::{Entry, Police};
pub use outbox::Outbox;
pub use route::Route;
