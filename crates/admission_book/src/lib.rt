//! What the interfaces of a node have promised, and admission control (RFC 2205, 1).
//!
//! A `Book` is a finite map from interface and key to flow. A flow is refused exactly where its largest packet passes the
//! interface's MTU, or its rate what the interface's other entries leave of the capacity; so at every moment the rates of
//! an interface's entries sum to at most its capacity. Memory is taken when a book is opened, and never later.
#![tactic(auto)]

mod admit;
mod book;
mod refused;
mod row;
mod rows;

pub use book::Book;
pub use refused::Refused;
pub use rsvp_base::{EntryKey, Iface};
