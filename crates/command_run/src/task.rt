//! Tasks.

/// What the program can do: replay a script, write its demand, show messages, grow a network and run it, serve one router over a
/// stream, or police packets.
#[derive(Clone, Copy)]
pub enum Task {
    Replay,
    Demand,
    Show,
    /// The network of this seed.
    Grow { seed: u64 },
    Node,
    Police,
}
