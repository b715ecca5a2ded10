//! What a run leaves beside what it wrote.
ghost use Rattle.std.specs.Prelude.{◌≡◌, [], None};

use network_replay::World;
use script_run::Opens;
use std::alloc::Global;

/// What a run of the program leaves beside what it wrote: the network in which it ended, and what it advises.
#[derive(Drop)]
pub struct Ended<R: Opens> {
    /// The network in which a run of events ended, where it came to its end.
    pub last: Option<World<R>>,
    /// The text that says what is wrong with the bad line, or by which line a replay is crowded; else it is empty.
    pub advice: Vec<u8>,
}

impl<R: Opens> Ended<R> {
    /// Nothing was run yet.
    pub fn new(alloc: Global) -> Ended<R>
        ensures last { result.last ≡ None }
        ensures advice { result.advice.items ≡ [] }
    {
        Ended {
            last: None,
            advice: Vec::new(alloc),
        }
    }
}
