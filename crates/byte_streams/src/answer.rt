//! What a reader of lines answers.

/// What came next on a stream of lines.
#[derive(Clone, Copy, Debug, PartialEq, Eq)]
pub enum NextLine {
    /// A line.
    Line,
    /// A line with more bytes than a line may have.
    Long,
    /// Nothing: the stream is at its end, and all lines were given.
    End,
    /// A call of the source failed.
    Fault,
    /// The stream has more bytes than an input may have.
    TooLong,
}
