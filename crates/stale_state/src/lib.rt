//! What is left over at the nodes of a network when a script begins: paths, reservations and blockades that die unless they
//! are refreshed (RFC 2205, 2.3).
//!
//! `Leavings` has them as a list, in the order in which they were added, and beside it the tables of each node, which say at
//! once whether a fact is there, whether there is room for one, and whether an interface has what a reservation asks for. A
//! table's memory is taken with the first fact in it.
#![tactic(auto)]

mod adding;
mod at_node;
mod fact;
mod ifaces;
mod leavings;
mod refused;
mod resvs;

pub use fact::{Left, LeftOver};
pub use leavings::Leavings;
pub use refused::LeftErr;
