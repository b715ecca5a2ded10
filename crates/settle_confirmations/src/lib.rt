//! Requests for a confirmation, and their answers (RFC 2205, 2.6): what comes back to a receiver that asks for one, how soon, for how much,
//! and what is then held.
//!
//! A request goes up the tree hop by hop, with the Resv that a node sends for a change, until a node has nothing new to ask for; there it
//! is answered, and the ResvConf goes back down by the marks that the Resv left. Definitions stand in `specs/`, and each public function of
//! `laws` has an empty body and a law as its promise.
#![tactic(auto)]

pub mod laws;
pub mod rows;
