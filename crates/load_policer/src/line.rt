//! What a line says.

use script_words::FlowWord;

/// Times are below this, in microseconds.
pub const END_OF_TIME: u128 = 1 << 63;

/// What a line of a stream of packets says, before the range of any number is looked at.
#[derive(Clone, Copy, Debug, PartialEq, Eq)]
pub enum PacketLine {
    /// A line without words, or one whose first byte is `#`.
    Skipped,
    /// `flow FLOW`.
    Flow(FlowWord),
    /// `MICROSECONDS BYTES`: when a packet came, in microseconds, and its size.
    Packet { at: u128, size: u128 },
}
