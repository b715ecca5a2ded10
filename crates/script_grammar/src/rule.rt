//! The rules that lines keep.

/// A rule that a line keeps behind those before it. Where it is told by a number or a style of the lines before, it is a case of
/// `Blame`.
#[derive(Clone, Copy)]
pub enum Rule {
    /// No line of a later part of the script came before.
    InTime,
    /// Its words are in range together.
    InRange,
    /// What it names was declared, or is there.
    Known,
    /// What it adds is not there yet.
    New,
    /// No other end has its name.
    NewName,
    /// No other end has its address.
    NewAddress,
    /// No sender stands twice in its list.
    NewSender,
    /// There is room for it.
    WithinLimits,
    /// A reservation of a fixed filter names one sender.
    OneSender,
    /// Its list has few senders.
    FewSenders,
    /// Few sessions are named with its own.
    FewSessions,
    /// No chain of hops of a group is closed by it.
    LoopFree,
}
