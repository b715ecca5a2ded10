//! The reservations that a node keeps, for a time (RFC 2205, 2.2 and 3.1.4; RFC 2209, 1: reservation state).
//!
//! A `ResvTable<S>` has those of one style: a finite map from session, interface, next hop and unit to the reservation with
//! what is left of it, and the dead ones that wait to be pulled. It merges what is on an interface, and what goes toward a
//! previous hop. Memory is taken when a table is opened, and never later.
#![tactic(auto)]

mod beside;
mod fact;
mod leaving;
mod merging;
mod renewing;
mod table;
mod walks;

pub use fact::ResvFact;
pub use soft_table::Finger;
pub use table::ResvTable;
