//! Policing: which packets of a flow conform to its token bucket (RFC 2211, 6), and a stream of packets, lines in, what is said of each out.
//!
//! A `Policer` is offered the packets of a flow in the order in which they come, and tells of each whether it conforms. It keeps one
//! level and no packet, and takes no memory; `laws` says what that is for whole lists: what passes keeps the bound, and what keeps
//! the bound passes. `police` reads a stream line by line, the flow and then the time and the size of each packet, and writes for
//! each packet whether it passes, as the packet comes, and at the end how many passed. Its clause says by how it ended exactly which
//! bytes were taken and which text was written. All memory is taken before the first byte is. It stands on `byte_streams`,
//! `script_words` and `value_texts`.
#![tactic(auto)]

mod adding;
mod advice;
mod blame;
mod ending;
pub mod laws;
mod line;
mod policer;
mod policing;
mod reading;
mod standing;
pub mod stream_laws;
mod words;

pub use ending::Ending;
pub use policer::{Policer, Verdict};
pub use policing::police;
