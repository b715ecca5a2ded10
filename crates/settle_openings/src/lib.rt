//! A network that opens: no node keeps anything yet, hosts begin to send and receivers ask, all at once; and then half periods go by,
//! each followed by a pass. Where what is asked fits and nothing is lost, nothing that a router keeps ever dies, nothing is refused, and
//! only Paths, and Resvs that ask for no confirmation, are in flight (RFC 2205, 2.3 and 3.7); and no more of them than a number of the
//! network, its senders and the Paths that were in flight at the start (`room_laws`).
//!
//! Definitions stand in `specs/`, and each public function has an empty body and a law as its promise.
#![tactic(auto)]

pub mod laws;
pub mod room_laws;
pub mod rows;
