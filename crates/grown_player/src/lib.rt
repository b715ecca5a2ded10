//! The run of a network that a seed grows: it is grown, the events of its plan are played, and its summary is written.
//!
//! `run_grown` does that over what a network is made of (`Opens`), with the world that also runs scripts (`network_replay`,
//! `script_run`). Its clause says by how it ended exactly what was written. What is grown stands in `grown_network`, and what a
//! summary tells in `grown_network`.
#![tactic(auto)]

mod counting;
mod growing;
mod playing;
mod running;
mod summing;

pub use running::run_grown;
