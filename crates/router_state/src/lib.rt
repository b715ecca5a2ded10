//! The state of a router: `Config`, where it stands; `Tables`, all that it keeps, with the book of its interfaces; and the facts that
//! these stand for at a clock, as definitions.
//!
//! `Tables` has no invariant of its own: what holds between two inputs is a definition here, and need not hold in the middle of a
//! call. Laws are public functions with empty bodies. It stands on the tables and the rules of a router.
#![tactic(auto)]

mod config;
pub mod laws;
mod tables;

pub use config::{Config, is_out, ways_by};
pub use tables::Tables;
