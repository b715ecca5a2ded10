//! Laws of networks of routers that speak of steps and rounds: that a script's rounds are calm, that steps keep the bounds, and
//! by which end a message leaves that says a hop.
//!
//! What paths and reservations become after so many rounds stands in the crates above. Definitions stand in `specs/`, and each
//! public function of `laws` has an empty body and a law as its promise.
#![tactic(auto)]

pub mod laws;
