//! What a router answers.

/// Why a datagram was dropped.
#[derive(Clone, Copy, Debug, PartialEq, Eq)]
pub enum Why {
    /// Its bytes spell no message, and the fault has no answer.
    Unspelt,
    /// It is not addressed to the node, or to the group of its session.
    NotMine,
    /// It names no sender, and means nothing without one.
    NoSender,
    /// A Path that did not come by the interface that leads to its sender.
    NotInward,
    /// A PathErr that did not come by an interface to which its sender's Paths go.
    NotOutward,
    /// It speaks of state that the node has not.
    NoState,
    /// A table has no room for what it brings.
    Full,
}

/// What a router made of a datagram.
#[derive(Clone, Copy, Debug, PartialEq, Eq)]
pub enum Heard {
    Taken,
    Dropped(Why),
    /// An error was sent back, with this code and value; where there are several, those of the first.
    Answered(u8, u16),
}

/// Why a local call was refused. Nothing changed then.
#[derive(Clone, Copy, Debug, PartialEq, Eq)]
pub enum LocalErr {
    /// It would be a 33rd session, or the 17th sender or unit of a session.
    Full,
    /// The session's local wants have another style.
    Style,
    /// There is nothing of that key.
    Absent,
    /// The sender's address is none of the node's.
    NotMine,
}

/// Why a left-over fact was refused. Nothing changed then.
#[derive(Clone, Copy, Debug, PartialEq, Eq)]
pub enum StaleErr {
    /// The table is at its limit.
    Full,
    /// The book of the interface refuses the reservation.
    Over,
}
