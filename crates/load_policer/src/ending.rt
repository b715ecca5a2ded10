//! How policing ended.

use script_words::LineWhy;

/// How policing a stream of packets ended.
///
/// At one line they come in this order: `ReadFault` or `TooLong` while it is read, then `BadLine`, then `WriteFault`. `NoMemory` comes
/// before the first byte is read.
#[derive(Clone, Copy, Debug, PartialEq, Eq)]
pub enum Ending {
    /// The input was read to its end, and the whole text was written.
    Done,
    /// The line of this number, from 1, is the first bad one, for this reason: `Limit`, `Word`, `Late` or `Range`.
    BadLine { line: u32, why: LineWhy },
    /// A call of the source failed.
    ReadFault,
    /// A call of the sink failed, or took nothing.
    WriteFault,
    /// Memory ran out.
    NoMemory,
    /// More than 4,194,304 bytes were taken.
    TooLong,
}
