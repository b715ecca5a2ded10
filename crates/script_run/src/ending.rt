//! How a run ended.

use script_grammar::Fault;

/// How a run of a script ended.
///
/// At one line they come in this order: `ReadFault` or `TooLong` while it is read, then `BadLine`, then `Crowded`, then `WriteFault`.
/// `NoMemory` may come at any time.
#[derive(Debug, Drop)]
pub enum Ending {
    /// The input was read to its end, and the whole text was written.
    Done,
    /// The line of this number, from 1, is the first bad one, and this is its fault.
    BadLine { line: u32, why: Fault },
    /// A call of the source failed.
    ReadFault,
    /// A call of the sink failed, or took nothing.
    WriteFault,
    /// Memory ran out.
    NoMemory,
    /// The run would have an 8,193rd datagram in flight.
    Crowded,
    /// More than 4,194,304 bytes were taken.
    TooLong,
}
