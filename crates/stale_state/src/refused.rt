//! Why a fact is not kept.
ghost use Rattle.std.specs.Prelude.{◌≡◌};
ghost use Rattle.stale_state.specs.declared.refused.LeftErr.TheVariants.{NoMemory};

use network_model::Excess;
use rsvp_base::NoMemory as OutOfMemory;
use std::alloc::{AllocError, AllocFailed};

/// Why a left-over fact is not kept.
#[derive(Clone, Copy, Debug, PartialEq, Eq)]
pub enum LeftErr {
    /// The tables of the node would not be within their limits.
    Full,
    /// This is not so, and merged with the others of its interface the reservation passes its capacity or its MTU.
    Over(Excess),
    /// Memory ran out.
    NoMemory,
}

impl From<OutOfMemory> for LeftErr {
    ghost from_gives = { λ _ e. e ≡ NoMemory };

    fn from(_: OutOfMemory) -> Self {
        LeftErr::NoMemory
    }
}

impl From<AllocError> for LeftErr {
    ghost from_gives = { λ _ e. e ≡ NoMemory };

    fn from(_: AllocError) -> Self {
        LeftErr::NoMemory
    }
}

impl<T: Drop> From<AllocFailed<T>> for LeftErr {
    ghost from_gives = { λ _ e. e ≡ NoMemory };

    fn from(_: AllocFailed<T>) -> Self {
        LeftErr::NoMemory
    }
}
