//! Messages as bytes: which bytes spell a message (RFC 2205, 3.1), and how they are read and written.
//!
//! `decode` gives the message that bytes spell, or their first fault with what could be read beside it. The grammar is a
//! definition in `specs/`: a table of classes for each kind, rules of place, the lists of the three styles, header and
//! checksum. `encode` writes each message in one way: the objects that it has, in one order, behind a header with the checksum. It
//! stands on the messages of `rsvp_messages` and the objects of `rsvp_objects`. No call takes memory.
#![tactic(auto)]

mod checksum;
mod decoding;
mod encoding;
mod fields;
mod filters;
mod gathering;
mod hinting;
pub mod laws;
mod lengths;
mod listing;
mod lists;
mod making;
mod messages;
mod places;
mod ranges;
mod reading;
mod role;
mod seen;
mod table;
mod writing_laws;

pub use checksum::ones_sum;
pub use decoding::decode;
pub use encoding::{encode, encode_into};
pub use filters::Filters;
pub use ranges::know_range;
pub use role::Role;
pub use seen::Seen;
pub use writing_laws::{
    in_range_is_what_types_know, what_is_in_place_stands, what_is_in_range_is_spelt,
    what_is_spelt_is_writable,
};
