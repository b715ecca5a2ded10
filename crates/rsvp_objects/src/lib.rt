//! Objects of messages as values and as bytes, with their fields: numbers in network byte order, rates as 32-bit words, the packets that
//! they stand in; and the ADSPEC, the object whose contents have parts of their own: what the path of a sender offers (RFC 2210, 3.3).
//!
//! `next_object` reads the object at a place or tells its first fault, `put_object` writes one, `put` has a function for
//! each class, for callers that have the value at hand, and what was put is read again as the same. `read` has one for each
//! class, for callers that know the class. Each figure of RFC 2205, appendix A, and of RFC 2210 stands once, as a definition
//! in `specs/`. Each rate has exactly one word, and a word stands for one rate at most or is refused by the first cause. A packet is a
//! list of at most 4,096 bytes. `read_adspec` gives the value of the contents of an ADSPEC or refuses them, and `write_adspec` puts the
//! object. No call takes memory.
#![tactic(auto)]

mod adspec;
mod adspec_reading;
mod adspec_writing;
mod class;
mod contents;
pub mod field_laws;
mod fields;
mod flags;
mod flow_reading;
mod fragments;
mod head;
pub mod laws;
mod obj_err;
mod object;
mod packet;
mod part_places;
mod part_values;
mod places;
pub mod put;
mod rate_err;
mod rate_word;
pub mod read;
mod read_class;
mod reading;
mod texts;
mod values;
mod walk;
mod words;
mod writing;

pub use adspec::Adspec;
pub use adspec_reading::read_adspec;
pub use adspec_writing::write_adspec;
pub use class::Class;
pub use fields::{addr_at, half_at, peak_at, word_at};
pub use fragments::Fragments;
pub use head::Head;
pub use obj_err::ObjErr;
pub use object::Object;
pub use packet::Packet;
pub use part_values::ADSPEC;
pub use rate_err::RateErr;
pub use rate_word::{rate_of_word, word_of_rate};
pub use reading::{head_at, next_object, object_with};
pub use writing::put_object;
