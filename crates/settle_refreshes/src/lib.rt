//! What is in flight in a network that has settled (RFC 2205, 3.7): refreshes alone, but for what may go round (`laws`); and how much that is, its
//! refresh overhead: a bound from the links, the trees, the senders and the wants, and that no further rounds crowd a network in
//! which refreshes alone are in flight, where these and the overhead have room together (`roomy_laws`).
//!
//! Definitions stand in `specs/`, and each public function of `laws` and `roomy_laws` has an empty body and a law as its promise.
#![tactic(auto)]

pub mod laws;
pub mod roomy_laws;
pub mod roomy_rows;
pub mod rows;
