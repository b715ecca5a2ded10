//! Faults of scripts.
ghost use Rattle.std.specs.Prelude.{◌≡◌};
ghost use Rattle.script_words.specs.declared.fault.ParseErr.TheVariants.{NoMemory};

use std::alloc::{AllocError, AllocFailed};
use thiserror::Error;

/// Why a line is bad. The first of these that a line has, in the order in which they are looked for, is its fault: a
/// length past the limit, `Word`, `Late`, `Range`, `Name`, `Twice`, a number past a limit, and last `Over`.
#[derive(Clone, Copy, Debug, PartialEq, Eq, Error)]
pub enum LineWhy {
    /// A first word that is unknown, a wrong number of words, or a word that is not of its form.
    #[error("word")]
    Word,
    /// A line of an earlier part of the script after one of a later part.
    #[error("late")]
    Late,
    /// A number, an address or a flow out of its range.
    #[error("range")]
    Range,
    /// A node or an end that was not declared.
    #[error("name")]
    Name,
    /// A period, a name, an address or the key of a fact a second time, or a sender twice in one list.
    #[error("twice")]
    Twice,
    /// A line of more than 2,048 bytes, or one thing more than a script may have.
    #[error("limit")]
    Limit,
    /// A left-over reservation that its interface cannot have beside those of the lines before: together they pass its
    /// capacity, or its largest packet passes the MTU.
    #[error("over")]
    Over,
}

/// The first bad line of a script: its number, from 1, and why it is bad.
#[derive(Clone, Copy, Debug, PartialEq, Eq, Error)]
#[error("line {line}: {why}")]
pub struct LineErr {
    pub line: u32,
    pub why: LineWhy,
}

/// Why there is no script.
#[derive(Clone, Copy, Debug, PartialEq, Eq, Error)]
pub enum ParseErr {
    /// A line is bad.
    #[error("{0}")]
    Line(LineErr),
    /// Memory ran out.
    #[error("no memory")]
    NoMemory,
}

impl From<AllocError> for ParseErr {
    ghost from_gives = { λ _ e. e ≡ NoMemory };

    fn from(_: AllocError) -> Self {
        ParseErr::NoMemory
    }
}

impl<T: Drop> From<AllocFailed<T>> for ParseErr {
    ghost from_gives = { λ _ e. e ≡ NoMemory };

    fn from(_: AllocFailed<T>) -> Self {
        ParseErr::NoMemory
    }
}
