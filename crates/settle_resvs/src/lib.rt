//! Laws: the reservations of a network settle. From any start, on sound and complete paths and with demands that fit, they become
//! exactly the wants, by the longest chain of hops (RFC 2205, 2.2, 2.3, 3.1.4 and 3.5).
//!
//! In the order of the proof: `hops`, what stays over one hop; `goals`, what a node is asked to hold; `soundness`, never more than is
//! wanted; `acceptance`, all is taken, so errors and blockades go; `exactness`. Definitions stand in `specs/`.
#![tactic(auto)]

pub mod acceptance;
pub mod exactness;
pub mod goals;
pub mod hops;
pub mod soundness;
