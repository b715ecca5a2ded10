//! Why an event was refused.

/// Why an event was refused. No later event changes the world.
#[derive(Clone, Copy, Debug, PartialEq, Eq)]
pub enum WorldErr {
    /// It would put an 8,193rd datagram in flight.
    Crowded,
    /// Memory ran out for its text, or for the routing with its tree.
    NoMemory,
}
