//! The line of `check` on how much is in flight, as a law of the run: the refresh overhead that is counted from the lines of a script is
//! that of the network behind them, so that a run that has settled has the room that the line says; and of which scripts that is so, by
//! their lines alone.
//!
//! It puts together that `check` writes that number (`script_demand`), that the network behind the lines of a script has what they ask
//! (`script_theorem`), and that a settled network is roomy (`settle_refreshes`). Definitions stand in `specs/`, and each public function
//! of `laws` has an empty body and a law as its promise.
#![tactic(auto)]

pub mod laws;
pub mod rows;
