//! What a router does after a wait, and where its routes moved, over all its tables, session after session (RFC 2205, 3.7; RFC 2209,
//! 2: PATH REFRESH, RESV REFRESH and ROUTE CHANGE NOTIFICATION).
//!
//! After a wait it goes through the sessions of which something died or that came due; the others cost nothing. What it sends is exactly
//! what the rule sends. Memory is taken when `Rooms` is opened, and never later. It stands on `router_aging` and `resv_sends`.
#![tactic(auto)]

pub mod laws;
mod moving;
mod nears;
mod passing;
mod rooms;
mod rounds;

pub use moving::change_routes;
pub use passing::pass_time;
pub use rooms::Rooms;
