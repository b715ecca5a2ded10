//! What holds at every step of every run of a script, settled or not: no book passes its capacity, what is refused changes
//! nothing, what a node sends and books while a blockade lives, and that what a confirmation confirms stands where it begins.
//!
//! Definitions stand in `specs/`, and each public function of `laws` has an empty body and a law as its promise.
#![tactic(auto)]

pub mod laws;
