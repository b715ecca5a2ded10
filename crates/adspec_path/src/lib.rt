//! What the path of a sender offers, composed hop by hop (RFC 2210, 3.3; RFC 2215, 3).
//!
//! `start` is the ADSPEC with which the Path of a sender leaves its own node, `pass_on` what a router sends on of one that came:
//! break bits, hop count, least bandwidth, latency, least MTU. `rate_below` is the bandwidth of an interface as a rate word can
//! tell it. `same_told` says whether two are the same. No call takes memory. It stands on `rsvp_objects` and `rsvp_base`.
#![tactic(auto)]

mod comparing;
mod composing;
pub mod laws;
mod rates;

pub use comparing::{same_adspec, same_told};
pub use composing::{pass_on, start};
pub use rates::rate_below;
pub use rsvp_objects::Adspec;
