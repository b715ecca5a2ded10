//! What an interface has too little of.

/// What an interface has too little of for a left-over reservation, beside those of the lines before (RFC 2205, 1: admission
/// control).
#[derive(Clone, Copy, Debug, PartialEq, Eq)]
pub enum Excess {
    /// Its largest packet, in bytes, is larger than the interface sends.
    Packet { most: u32, mtu: u32 },
    /// This is not so, and the rates of the merged reservations on the interface come together to more than its capacity, in
    /// bytes per second.
    Rate { sum: u128, capacity: u64 },
}
