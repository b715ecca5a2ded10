//! What a valid script says of its plan: the premises of the laws of runs.
//!
//! A law here speaks of the lines of a script one after another, whatever they are. Definitions stand in `specs/`, and each public
//! function of `laws` has an empty body and a law as its promise.
#![tactic(auto)]

pub mod laws;
