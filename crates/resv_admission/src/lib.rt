//! A Resv is taken or refused, unit by unit, or torn down (RFC 2205, 2.2, 3.5 and appendix B; RFC 2209, 2: RESV MESSAGE ARRIVES,
//! UPDATE TRAFFIC CONTROL).
//!
//! A router keeps a table of reservations for each style, and beside them the book of what its interfaces have promised. Each call
//! changes a table and the book together: the book stays that of the facts. It stands on the tables, the book and the rules.
#![tactic(auto)]

mod book_renewal;
mod dying;
mod leaving;
mod lost;
mod matching;
mod placing;
mod refusals;
mod unit;
mod unit_renewal;
mod units;

pub use dying::{age, pull_dead};
pub use leaving::{forget_name, tear_all, tear_names};
pub use matching::Matching;
pub use placing::{Placed, place, stand};
pub use refusals::{Refusal, Refusals};
pub use unit::{Asker, Taken, Wanted};
pub use units::{refuse_units, take_units};
