//! The theorem, of every valid script: where its network has settled a report is the demand, and at each of its steps no book passes
//! its capacity, no refusal changes a reservation, and blockades keep their promises.
//!
//! It is stated of a plan, once (`theorem`); the clauses of `command_run` cite it. `reports`: a settled report is the demand. `worlds`:
//! the network behind the lines of a script has what they ask. It stands on `settle_network`, `laws_safety` and `laws_scripts`.
#![tactic(auto)]

pub mod reports;
pub mod rows;
pub mod theorem;
pub mod worlds;
