//! The network that a seed grows.
ghost use Rattle.std.specs.Prelude.{◌≡◌, ◌*◌, ◌+◌, ◌≤◌, IfOk};
ghost use Rattle.tree_model.specs.Ranks.{longest};
ghost use Rattle.grown_network.specs.GrownBy.{IsGrownBy};

use crate::growing::routing;
use crate::hosts::{Wanted, senders, wants};
use crate::names::names;
use rsvp_base::{EndName, NoMemory};
use std::alloc::Global;
use tree_model::LocalSender;
use tree_routing::Routing;

/// A quarter of the refresh period, in milliseconds.
pub const QUARTER: u32 = 7500;

/// What a seed grows: a network of 64 nodes, of which each but the first hangs on another, the tree of each of twelve senders,
/// and what is wanted.
#[derive(Drop)]
pub struct Grown {
    pub routing: Routing,
    /// The names of the ends, by number.
    pub names: Vec<EndName>,
    /// Who sends, by session, each 1000/1000/inf/64/1500.
    pub senders: Vec<LocalSender>,
    /// What is wanted, by node and session.
    pub wants: Vec<Wanted>,
    /// How many rounds the network runs then: 16 H + 16, where H is the length of the longest chain of hops.
    pub rounds: u32,
}

// How many rounds are enough for a network to settle.
fn rounds_for(routing: &Routing) -> u32
    requires { longest routing.now ≤ 8192 }
    ensures { result ≡ 16 * longest routing.now + 16 }
{
    16 * routing.longest() + 16
}

/// Grows the network of a seed. `NoMemory`: there was no room for it.
pub fn grow(alloc: Global, seed: u64) -> Result<Grown, NoMemory>
    ensures { IfOk result (λ grown. IsGrownBy seed grown) }
{
    let senders = senders(alloc, seed)?;
    let routing = routing(alloc, senders.as_slice())?;
    let rounds = rounds_for(&routing);
    Ok(Grown {
        routing,
        names: names(alloc)?,
        senders,
        wants: wants(alloc, seed)?,
        rounds,
    })
}
