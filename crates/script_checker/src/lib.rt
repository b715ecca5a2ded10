//! The checker of scripts: what the lines of one have said so far, and the first fault of the first bad line.
//!
//! Each line is exactly what the grammar of `script_grammar` says of it behind the lines before. The state
//! and the rules are those of `script_rules`.
#![tactic(auto)]

mod asking;
mod checker;
mod checking;
mod rules;
mod starting;

pub use checker::Checker;
