//! The events of the run of a script, as lines of JSON: each line that runs, each datagram that is sent, delivered, lost or
//! copied, and how each end and what is in flight stand behind each line and each round.
//!
//! `write_events` runs a script as `run_script` does, and watches it (`Recorder`). What each line says is a function of what the
//! network shows at that moment: each call that puts an event, or a part of one, appends exactly its definition in
//! `specs/EventTexts`; docs/EVENTS.md tells the form. It stands on `script_run` for the run, and on `value_texts` and
//! `message_show` for the words of values and of messages.
#![tactic(auto)]

mod book_texts;
mod books;
mod datagrams;
mod flights;
mod flying;
mod json;
mod lines;
mod nowhere;
mod recorder;
mod running;
mod senders;
mod watching;

pub use book_texts::{put_book, put_members};
pub use datagrams::{
    kind_word, put_copied, put_datagram, put_delivered, put_lost, put_shown, put_went,
};
pub use flights::put_flight;
pub use lines::{put_end, put_line, put_report, put_round};
pub use recorder::Recorder;
pub use running::write_events;
