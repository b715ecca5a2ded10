//! What is wanted over a hop.
use style_rules::Parts;
use tree_model::LinkHop;

/// What is wanted over a hop, of a session and style.
#[derive(Drop)]
pub struct HopWant {
    /// The hop.
    pub hop: LinkHop,
    /// What is wanted, unit by unit.
    pub parts: Parts,
}
