//! Worked rows: what a router does at the nodes of three routers in a line and of a fork.
//!
//! `specs/` states for chosen facts and inputs what the rules of `router_rules` leave and send; each public function of
//! `rows` has an empty body and such a row as its promise, which holds by computing the rule.
#![tactic(auto)]

pub mod rows;
