//! Laws of advertisements (RFC 2210, 3.3): what the paths of a network tell of their senders after so many calm rounds, whatever they kept
//! and whatever was in flight before.
//!
//! An ADSPEC goes with the Path that carries it, so it is soft state hop by hop along a sender's tree, and the proof goes by the depth of
//! nodes in the tree, as that of sound paths does: the node of an advertised sender begins an advertisement, and each node further on passes
//! on what its path keeps. Definitions stand in `specs/`, and each public function of `laws` has an empty body and a law as its promise.
#![tactic(auto)]

pub mod laws;
pub mod rows;
