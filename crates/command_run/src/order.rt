//! Orders.
/// What a command line orders.
#[derive(Clone, Copy, Debug, PartialEq, Eq)]
pub enum Order {
    /// Replay a script.
    Replay,
    /// Tell what the receivers of a script ask for, at the end of each link.
    Demand,
    /// Show messages in words.
    Show,
    /// Make a network from a seed, and replay it.
    Grow { seed: u64 },
    /// Serve one router over a stream of frames.
    Node,
    /// Tell which packets of a flow conform to it.
    Police,
}

/// Why there is no order.
#[derive(Clone, Copy, Debug, PartialEq, Eq)]
pub enum NoOrder {
    /// The words are a faulty command line.
    Usage,
    /// There was no memory to read them.
    NoMemory,
}
