//! A host that begins to send where receivers already wait (RFC 2205, 2): what the network does before any timer runs, by passes alone.
//!
//! The new sender's Path goes down its tree one hop a pass, and a node that comes to know the sender asks for what the receivers behind it
//! want of it at once: so reservations follow the paths, and when these are there they rise as those of `settle_passes` do. A host that
//! advertises (RFC 2210, 3.3): what its paths keep comes to be the advertisements of their ways, one hop a pass. A host that
//! says another flow than before (RFC 2205, 2.3): its paths come to keep that one, one hop a pass, and reservations stay what they are. And a
//! host that ends: no node ever keeps more than was wanted before, reservations name those alone that send when its paths are gone, and a
//! settled network settles again, with nothing in flight where nobody waited to be confirmed. Definitions stand in `specs/`, and each public
//! function of `laws` has an empty body and a law as its promise.
#![tactic(auto)]

pub mod laws;
pub mod rows;
