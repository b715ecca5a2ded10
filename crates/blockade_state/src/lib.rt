//! The blockades of a node, for a time (RFC 2205, 3.5; RFC 2209, 1: blockade state).
//!
//! `Blockades` is a finite map from session and target to the wall that stands there with what is left of it: at most 512.
//! What dies is gone at once. Memory is taken when the map is opened, and never later.
#![tactic(auto)]

mod fact;
mod table;
mod touched;

pub use style_rules::Target;
pub use table::Blockades;
pub use touched::Touched;
