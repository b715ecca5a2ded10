//! The room for going through the sessions of a node.
ghost use Rattle.std.specs.Prelude.{◌≡◌, IfOk};

use crate::nears::Nears;
use router_aging::{DeadPaths, LostHops};
use rsvp_base::NoMemory;
use std::alloc::Global;

/// The room that a wait and a move of routes need: for the paths that die and where they came from, and for the previous hops
/// that sessions had before.
/// Nothing is kept there from one call to the next.
#[derive(Drop)]
pub struct Rooms {
    pub(crate) dead: DeadPaths,
    pub(crate) lost: LostHops,
    pub(crate) nears: Nears,
}

impl Rooms {
    /// The room. It takes no memory later. `NoMemory`: it could not be had.
    pub fn open(alloc: Global) -> Result<Rooms, NoMemory> {
        let dead = DeadPaths::open(alloc)?;
        let lost = LostHops::open(alloc)?;
        let nears = Nears::open(alloc)?;
        Ok(Rooms { dead, lost, nears })
    }
}
