//! The line of text that says what is wrong with a bad line.
//!
//! `put_blamed_line` puts it together, of the word that is to blame and of what is wanted. It takes no memory: `make_room` made room for
//! any before, and none is longer. `flow_fault` finds the first number of a flow that is out of range, with the nearest rates where it
//! is none; `put_flow_fault` says so in words. Each is exactly its definition in `specs/`.
#![tactic(auto)]

mod blamed;
mod flow_faults;
mod flow_texts;
pub mod rates;

pub use blamed::{Blames, make_room, put_blamed_line};
pub use flow_faults::{FlowFault, FlowRate, flow_fault};
pub use flow_texts::put_flow_fault;
