//! How values are printed: addresses, sessions, styles, rates, flows and ADSPECs; the lines of a report; and the word of a bad line, by its
//! column and quoted, with invisible bytes named and a long word cut.
//!
//! Each call that puts a text appends it to what is there, and the text is exactly its definition in `specs/`. No memory is taken but
//! for the text that grows. It stands on `rsvp_objects`, `rsvp_base` and `script_words`.
#![tactic(auto)]

mod adspec;
mod blamed;
mod lines;
mod place;
mod quote;
mod texts;

pub use adspec::put_adspec_words;
pub use blamed::{Blames, put_blamed_line};
pub use lines::{put_entry, put_head, put_line};
pub use place::word_at;
pub use quote::{put_quoted, put_strange};
pub use texts::{
    put, put_addr, put_flow, put_name, put_names, put_number, put_sender, put_session, put_style,
};
