//! Laws of the run of a seed, whatever the seed: its network opens (`openings`), its plan is fit, it is never crowded, it ends settled
//! with what is asked of it, it writes its demand (`runs`), and its summary ends in `equal yes` (`summaries`).
//!
//! Definitions stand in `specs/`, and each public function has an empty body and a law as its promise. It stands on `grown_network`,
//! `settle_openings` and `script_theorem`.
#![tactic(auto)]

pub mod openings;
pub mod runs;
pub mod summaries;
