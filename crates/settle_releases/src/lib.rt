//! Release without waiting (RFC 2205, 3.11.1): what a network does before any timer runs, when a receiver quits or asks for less, by
//! passes alone.
//!
//! The node of the receiver says so at once, by a ResvTear for what it wants no more and a Resv for what it wants less, and so does each
//! router behind it: what is held goes down one hop a pass, by the longest chain that begins with a hop. Definitions stand in `specs/`,
//! and each public function of `laws` has an empty body and a law as its promise.
#![tactic(auto)]

pub mod laws;
pub mod rows;
