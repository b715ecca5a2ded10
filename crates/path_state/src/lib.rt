//! The paths that a node knows, for a time (RFC 2205, 2.1 and 3.1.2; RFC 2209, 1.1: path state).
//!
//! A `PathTable` is a finite map from session and sender to the path's fact with what is left of it, and the dead facts that
//! wait to be pulled. Memory is taken when a table is opened, and never later.
#![tactic(auto)]

mod fact;
mod hops;
mod table;
mod walks;

pub use fact::{PathFact, copy_of};
pub use hops::Hops;
pub use soft_table::SessionFacts;
pub use table::PathTable;
