//! A network settles: from any start, after so many calm rounds, paths, reservations and books are what the hosts ask for, and
//! nothing is left of refusals and blockades.
//!
//! This is what soft state is for (RFC 2205, 2.3 and 3.7): whatever was left over, lost, copied or injected dies out. The laws of
//! the crates below are put one after the other in `proofs/Settled.antt`. Definitions stand in `specs/`, and each public function
//! of `laws` has an empty body and a law as its promise.
#![tactic(auto)]

pub mod laws;
