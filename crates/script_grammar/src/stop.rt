//! Why a line was not taken, or not run.
ghost use Rattle.std.specs.Prelude.{◌≡◌};
ghost use Rattle.script_grammar.specs.declared.stop.Stop.TheVariants.{NoMemory as OutOfMemory};

use crate::fault::Fault;
use rsvp_base::NoMemory;
use std::alloc::{AllocError, AllocFailed};

/// Why a line was not taken, or not run.
#[derive(Debug, Drop)]
pub enum Stop {
    /// It is bad: this is its first fault after the lines before it.
    Bad(Fault),
    /// Its event would put an 8,193rd datagram in flight. What only checks lines never answers this.
    Crowded,
    /// Memory ran out.
    NoMemory,
}

impl From<AllocError> for Stop {
    ghost from_gives = { λ _ e. e ≡ OutOfMemory };

    fn from(_: AllocError) -> Self {
        Stop::NoMemory
    }
}

impl<T: Drop> From<AllocFailed<T>> for Stop {
    ghost from_gives = { λ _ e. e ≡ OutOfMemory };

    fn from(_: AllocFailed<T>) -> Self {
        Stop::NoMemory
    }
}

impl From<NoMemory> for Stop {
    ghost from_gives = { λ _ e. e ≡ OutOfMemory };

    fn from(_: NoMemory) -> Self {
        Stop::NoMemory
    }
}
