//! Set-up without waiting: what a network does before any timer runs, when a host begins to send or ends, or a receiver asks, by passes
//! alone.
//!
//! A pass delivers what is in flight, one datagram after the other, and no time goes by. Routers send at once for what changes
//! (RFC 2205, 2.3), so that what is new crosses one hop a pass: paths down, by the depth of nodes in the tree, and reservations up, by
//! the longest chain that begins with a hop. Definitions stand in `specs/`, and each public function of `laws` has an empty body and a
//! law as its promise.
#![tactic(auto)]

pub mod laws;
pub mod rows;
