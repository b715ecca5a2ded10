//! Worked rows of the laws of a network: small worlds that meet the premises of a law, and at whose start what it promises does
//! not hold yet; or, where a law speaks of one world, one of which it says something, and one that lacks a premise and of which
//! the law would be wrong.
//!
//! Others stand beside their laws, in the crates below. Definitions stand in `specs/`, and each public function of `laws` has an
//! empty body and a row as its promise.
#![tactic(auto)]

pub mod laws;
