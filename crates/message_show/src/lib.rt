//! How messages are shown: a line of words for each, or why it is none.
//!
//! `show` takes lines of hexadecimal digits and gives the text, or the first bad line: both are relations in `specs/`, and
//! the laws in `laws` say that they leave no choice. Each line of the text is that of the message that the bytes spell, or
//! of their first fault. The digits are read where they lie, into room for one message; no memory is taken but for the text
//! that grows. It stands on `message_codec` for what bytes spell, on `value_texts` for the words that scripts and reports
//! have too, and on `script_words` for how a bad line is told.
#![tactic(auto)]

mod advice;
pub mod laws;
mod lines;
mod message;
mod parts;
mod reading;
mod refusal;
mod stop;

pub use lines::{MOST_DIGITS, show};
pub use message::put_message;
pub use reading::put_reading;
pub use refusal::put_refusal;
