//! Networks, the trees along which they send, and what is wanted over each hop: definitions and their laws.
//!
//! A tree is the list of its hops in the order in which it was grown. A hop is followed by another where a tree of its
//! group has both and the second goes out of the node that the first goes into; a shared reservation can pass from tree to
//! tree along such chains (RFC 2205, 3.5), so a routing is sound only where no chain is closed.
//!
//! The want of a hop is the style merge (RFC 2205, 2.2) of what is wanted at the node that it goes into and of the wants of
//! the hops that follow it, cut to the senders whose trees go that way. It knows senders and receivers alone, and no state
//! of a router.
//!
//! Definitions stand in `specs/`; each public function of `laws` (trees and chains) and of `demands` (wants, and what the
//! ends of links owe) has an empty body and a law as its promise.
#![tactic(auto)]

pub mod demands;
mod hops;
pub mod laws;
mod locals;

pub use hops::{End, LinkHop, TreeHop};
pub use locals::{LocalSender, LocalWant};
