//! Where bytes come from and where they go, and the lines of a stream, one after the other.
//!
//! A call of a `Source` or a `Sink` may fail, and tells so by a count that rises: so a fault was the outside's and never the code's.
//! A `LineReader` reads the same lines however the stream is cut into pieces. No more than `MOST_BYTES` bytes of an input are read, and
//! one more is all that is ever taken; no more is taken than is needed. It stands on `rsvp_base` and `script_words`.
#![tactic(auto)]

mod answer;
mod memory;
mod plain;
mod reader;
mod reading;
mod standard;
mod streams;
mod writing;

pub use answer::NextLine;
pub use memory::{MemorySink, MemorySource};
pub use plain::{PlainSink, PlainSource};
pub use reader::{LineReader, MOST_LINE};
pub use reading::{MOST_BYTES, ReadErr, read_all};
pub use standard::{StdSink, StdSource};
pub use streams::{Failed, Sink, Source};
pub use writing::write_all;
