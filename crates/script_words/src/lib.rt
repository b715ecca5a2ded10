//! The words of a script line, one reader for each kind of word.
//!
//! A word is read in two steps, since a line may have a fault of each kind and the faults have an order. First its form:
//! a reader answers `None` where the word has not the form of its kind, and else the numbers that stand in it, whatever
//! their size. Then their range, which gives a value of `rsvp_base`. Each step is exactly its definition in `specs/`.
//! Words are read where they lie: only lists of addresses and of senders, and the list of a line's words, take memory.
//!
//! `LineErr` says which line of a text is bad, and why.
#![tactic(auto)]

mod address;
mod fault;
mod flow;
mod lines;
mod numbers;
mod parts;
mod raw;
mod session;
mod styles;
mod unread;
mod words;

pub use address::{addresses, is_group, is_host};
pub use fault::{LineErr, LineWhy, ParseErr};
pub use lines::next_line;
pub use numbers::number;
pub use parts::{first_part, five_parts, four_parts, three_parts, two_parts};
pub use raw::{DottedQuad, FlowWord, SenderWord, SessionWord};
pub use session::senders;
pub use styles::style;
pub use unread::Unread;
pub use words::{is_printable, read_words};
