//! Errors and confirmations in a router: which faults of bytes it answers and how, to whom an error or a confirmation goes on, which
//! blockades an error sets; and the policing flags of an entry (RFC 2205, 2.6, 3.1.7 to 3.1.9, 3.5, 3.8, 3.10 and appendix B).
//!
//! Each call is the rule of a router (`router_rules`) over the tables that it is given, whatever the clock: what is heard, what is
//! sent, in order, through an outbox of the caller, and the blockades afterwards. No call takes memory.
#![tactic(auto)]

mod answer;
mod confirm;
pub mod laws;
mod outgoing;
mod pass;
mod path_err;
mod police;
mod resv_conf;
mod resv_err;
mod stale;
mod unspelt;
mod walls;

pub use answer::answer_for;
pub use confirm::confirms;
pub use pass::passes_on;
pub use path_err::pass_path_err;
pub use police::police_flags;
pub use resv_conf::pass_resv_conf;
pub use resv_err::{pass_resv_err, set_blockades};
pub use router_rules::Police;
pub use stale::leave_wall;
pub use unspelt::answer_unspelt;
