//! How the service of a stream ended.

use script_words::LineWhy;

/// How the service of a stream ended.
///
/// At one frame they come in this order: `ReadFault` or `TooLong` while it is read, then `BadFrame`, then `WriteFault`. `NoMemory`
/// comes before the first byte is read, or at the first frame.
#[derive(Clone, Copy, Debug, PartialEq, Eq)]
pub enum Ending {
    /// The input was read to its end, each frame was served, and all answers were written.
    Done,
    /// The frame of this number, from 1, is the first bad one, for this reason: `Word`, `Late` or `Range`.
    BadFrame { frame: u32, why: LineWhy },
    /// A call of the source failed.
    ReadFault,
    /// A call of the sink failed, or took nothing.
    WriteFault,
    /// Memory ran out.
    NoMemory,
    /// More than 4,294,967,296 bytes were taken. Nothing was asked for behind the piece, of at most 4,096, that passed them.
    TooLong,
}
