//! What is left over.
use path_state::PathFact;
use resv_state::ResvFact;
use rsvp_base::{Session, StyleKind};
use style_rules::{Target, Wall};

/// A fact that is left over.
#[derive(Drop)]
pub enum Left {
    /// Path state (RFC 2209, 1: PSB).
    Path(PathFact),
    /// A reservation of a style (RFC 2209, 1: RSB).
    Resv(StyleKind, ResvFact),
    /// A blockade of a session toward a target (RFC 2209, 1: BSB).
    Wall(Session, Target, Wall),
}

/// A fact that is left over at a node, with what is left of its life.
#[derive(Drop)]
pub struct LeftOver {
    pub node: u16,
    pub fact: Left,
    /// In milliseconds.
    pub left: u32,
}
