//! The program as a function: `run` is `run_command` at the checker of scripts and the routers that are shipped, with each of its
//! clauses.
//!
//! `rsvpd_cmd` calls it with the words of the command line, standard input and standard output, and tests with sources and sinks in
//! memory. `Progress` is what watches a run at a terminal, and `Noting` keeps what the system says of a device.
#![tactic(auto)]

mod noting;
mod program;
mod progress;

pub use noting::Noting;
pub use program::run;
pub use progress::Progress;

// For the callers of `run`.
pub use command_run::{Ended, Status, Unwatched, Watch};
