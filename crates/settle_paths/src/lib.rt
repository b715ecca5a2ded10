//! Laws of the paths of a network: what nodes keep of them after so many calm rounds, whatever they kept and whatever was in
//! flight before.
//!
//! Path state is refreshed hop by hop along a sender's tree (RFC 2205, 2.3 and 3.7). Paths become sound, then complete. The
//! proofs go by the depth of nodes in the tree. Definitions stand in `specs/`, and each public function of `laws` has an empty
//! body and a law as its promise.
#![tactic(auto)]

pub mod laws;
