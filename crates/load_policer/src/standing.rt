//! Where policing stands between two lines.

use crate::policer::Policer;

/// What is kept between two lines.
#[derive(Drop)]
pub struct Standing {
    /// The policer, behind the line of the flow.
    pub policer: Option<Policer>,
    /// The time of the last line of a packet, in microseconds.
    pub last: u64,
    /// How many packets passed. It stands still at the last value of its type.
    pub passed: u64,
    /// How many packets were offered. It stands still at the last value of its type.
    pub offered: u64,
}
