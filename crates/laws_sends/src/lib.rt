//! Laws of what a router sends, by the sessions and senders that an input changed, one or several, as after a wait or where its routes
//! moved.
//!
//! The rule of a router compares all offers and all lanes before and after; here it is shown to be enough to look at those of the
//! sessions that changed. Definitions, and laws as public functions with empty bodies. It stands on `router_state`.
#![tactic(auto)]

pub mod round_sends;
pub mod session_sends;
