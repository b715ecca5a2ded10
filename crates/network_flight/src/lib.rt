//! What is in flight in a network, and the wires that it goes along.
//!
//! `Flight` has the datagrams in flight as bytes, in the order of sending; all its memory is taken at the opening. `Wires` has
//! the ends of links and the ways between them. `put_copies` spells a message that is sent straight into the room of its
//! datagrams, one for each end to which it goes.
#![tactic(auto)]

mod flight;
mod rooms;
mod sending;
mod tables;
mod wires;

pub use flight::{Flight, room};
pub use sending::put_copies;
pub use wires::Wires;
