//! The grammar of scripts: which bytes are one, what each line says and adds, the first fault of the first bad line, and what is wrong
//! with it, in words.
//!
//! Definitions stand in `specs/`, in the words of docs/SCRIPTS.md. `read_line` reads what the words of a line say; the rules that it
//! keeps behind the lines before, in the order of the faults, are definitions. A `Kind` of line has its fields: `unformed` and
//! `first_out` find the first word that has not the form of its field, or is out of its range. `find_blame` finds by the fault of a line
//! and by the lines before it (`LinesBefore`) the word that breaks the rule, and `put_advice` writes the line of text that tells it: the
//! column, the word and what is wanted there.
#![tactic(auto)]

mod advice;
mod blame;
pub mod blame_laws;
mod breaks;
mod fault;
mod field;
mod first_words;
mod forms;
mod kind;
pub mod kind_laws;
mod known;
pub mod laws;
mod line;
mod line_kinds;
mod list;
mod named;
pub mod rows;
mod rule;
mod stop;
mod texts;
mod tree_blames;
mod wanted;
mod word_list;

pub use advice::{put_advice, put_long};
pub use blame::{Blame, find_blame};
pub use fault::Fault;
pub use field::Field;
pub use first_words::{first_out, unformed};
pub use kind::Kind;
pub use known::LinesBefore;
pub use line::{
    EndLine, HopEnds, HopLine, InjectLine, LatencyLine, QuitLine, RerouteLine, ScriptLine,
    SendLine, SenderLine, StaleHopWallLine, StalePathLine, StaleResvLine, StaleSenderWallLine,
    WantLine,
};
pub use line_kinds::read_line;
pub use list::{LinkEnds, Listed};
pub use named::Named;
pub use rule::Rule;
pub use stop::Stop;
pub use word_list::few_words;
