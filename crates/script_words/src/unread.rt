//! Why words were not read.
ghost use Rattle.std.specs.Prelude.{◌≡◌};
ghost use Rattle.script_words.specs.declared.unread.Unread.TheVariants.{NoMemory};

use std::alloc::{AllocError, AllocFailed};

/// Why a word or a line was not read.
#[derive(Clone, Copy, Debug, PartialEq, Eq)]
pub enum Unread {
    /// A word has not the form of its kind.
    Word,
    /// Memory ran out.
    NoMemory,
}

impl From<AllocError> for Unread {
    ghost from_gives = { λ _ e. e ≡ NoMemory };

    fn from(_: AllocError) -> Self {
        Unread::NoMemory
    }
}

impl<T: Drop> From<AllocFailed<T>> for Unread {
    ghost from_gives = { λ _ e. e ≡ NoMemory };

    fn from(_: AllocFailed<T>) -> Self {
        Unread::NoMemory
    }
}
