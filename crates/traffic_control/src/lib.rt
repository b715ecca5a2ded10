//! The entries of an interface's book, with the policing flags with which they are handed to traffic control (RFC 2205, 3.8).
//!
//! The rule of a router (`router_rules`) over its tables of paths and reservations and the book that it keeps, whatever the
//! clock. No call takes memory.
#![tactic(auto)]

mod beside;
mod entries;
mod matching;
mod police;

pub use entries::entry_at;
pub use police::police_at;
