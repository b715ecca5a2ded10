//! Laws of one step of a router, whatever its facts: which inputs change which table, where paths, reservations, errors and blockades
//! come from and how they go, how countdowns move, what is sent and why, and which Resvs are accepted.
//!
//! The statements are definitions in `specs/`; each public function has an empty body and a law as its promise. In `examples` stand
//! facts and inputs that meet the premises. It stands on `laws_bounds`, and by it on `router_rules`.
#![tactic(auto)]

pub mod acceptance;
pub mod countdowns;
pub mod errors;
pub mod examples;
pub mod frames;
pub mod paths;
pub mod reservations;
pub mod sends;
