//! What is kept of an open router beside it, and why a frame is not served.

use crate::blame::Blame;
use crate::placing::PlaceErr;
use rsvp_base::NoMemory;

/// What the frames of an open router are measured by: how many interfaces it has, and a quarter of its period, in milliseconds.
#[derive(Clone, Copy, Debug, PartialEq, Eq)]
pub struct Limits {
    pub ifaces: usize,
    pub quarter: u32,
}

/// Why a frame was not served.
#[derive(Clone, Copy, Debug, PartialEq, Eq)]
pub enum Stop {
    /// It breaks a rule.
    Bad(Blame),
    /// There was no memory for the router that it opens.
    NoMemory,
}

impl From<NoMemory> for Stop {
    ghost use Rattle.std.specs.Prelude.{◌≡◌};
    ghost use Rattle.node_stream.specs.declared.state.Stop.TheVariants as stop;

    ghost from_gives = { λ _ e. e ≡ stop.NoMemory };

    fn from(_: NoMemory) -> Stop {
        Stop::NoMemory
    }
}

impl From<PlaceErr> for Stop {
    ghost use Rattle.std.specs.Prelude.{◌≡◌};
    ghost use Rattle.node_stream.specs.Stops.{stop_of};

    ghost from_gives = { λ e s. s ≡ stop_of e };

    fn from(err: PlaceErr) -> Stop {
        match err {
            PlaceErr::Bad(blame) => Stop::Bad(blame),
            PlaceErr::NoMemory => Stop::NoMemory,
        }
    }
}
