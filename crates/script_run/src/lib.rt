//! The run of a script line by line: each line is read, checked and run on a network, and its text is written, before the next is read.
//!
//! The clause of `run_script` says by how the run ended which bytes were taken and which text was written. What checks lines (`Checks`)
//! and the routers (`Opens`) are abstract: one of each is shipped, and the traits keep the proofs apart. It stands on
//! `script_grammar`, `network_replay` and `stale_state`.
#![tactic(auto)]

mod checks;
mod crowding;
mod ending;
mod event_run;
pub mod laws;
mod opens;
mod player;
mod running;
mod script_player;
mod script_run;

pub use checks::{Checks, Start};
pub use ending::Ending;
pub use event_run::run_event;
pub use opens::Opens;
pub use player::Player;
pub use running::run_lines;
pub use script_player::ScriptPlayer;
pub use script_run::run_script;

// For the callers of `run_script`.
pub use network_replay::{Unwatched, Watch};
