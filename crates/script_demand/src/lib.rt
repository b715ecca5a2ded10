//! What each end of a script's network owes behind its last line, and what in the script will not do what its writer meant.
//!
//! `write_demand` reads a whole script, checks its lines and writes the demand, and whether that fits; its clause says by how that ended
//! what was taken and written. `demand_text` gives the text for what hosts ask of a network, exactly its definition in `network_model`.
//!
//! `write_findings` reads a whole script in the same way and writes what `network_demand` finds: what does not fit in the demands, what
//! starves since another style came late, and who meets nobody; and where all fits, how much is in flight once it has settled. It says a
//! misfit if and only if the demand of the same script ends in `fits no` (`laws`), and else the refresh overhead of the network.
//!
//! What checks the lines is abstract (`Asks`). It stands on `network_demand`, `script_run` and `laws_scripts`.
#![tactic(auto)]

mod asks;
mod demand_lines;
mod demanding;
mod findings;
mod late_lines;
pub mod laws;
mod misfit_lines;
mod noted_lines;
mod room_line;
mod script_lines;
mod stray_lines;
mod telling;
mod want_lines;
mod whole_text;
mod writing;

pub use asks::Asks;
pub use demanding::write_demand;
pub use findings::{Checked, write_findings};
pub use telling::end_bad;
pub use whole_text::{Saying, findings_text};
pub use writing::demand_text;
