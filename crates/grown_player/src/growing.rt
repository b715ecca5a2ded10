//! A network grows, and is opened.
ghost use Rattle.std.specs.Prelude.{◌≡◌, ◌≤◌, IfOk};
ghost use Rattle.grown_network.specs.Grown.{grown_net};
ghost use Rattle.grown_network.specs.GrownBy.{IsGrownBy};
ghost use Rattle.grown_network.specs.Nodes.{names_up_to};
ghost use Rattle.script_run.specs.Standing.{StandsBehind};
ghost use Rattle.grown_player.specs.Growing.{IsExpected, first_plan};

use grown_network::{Grown, QUARTER, asked};
use network_flight::Wires;
use network_replay::World;
use rsvp_base::{EndName, NoMemory};
use script_demand::demand_text;
use script_run::Opens;
use std::alloc::Global;
use tree_routing::Routing;

/// What is known of a grown network before its run.
#[derive(Drop)]
pub(crate) struct Expected {
    /// Its ends and links.
    pub(crate) wires: Wires,
    /// The length of its longest chain of hops.
    pub(crate) longest: u32,
    /// How many rounds its run has.
    pub(crate) rounds: u32,
    /// The text of its demand.
    pub(crate) demand: Vec<u8>,
}

/// What is known of the network of a seed. `NoMemory`: there was no room for it.
pub(crate) fn expect(alloc: Global, seed: u64, grown: &Grown) -> Result<Expected, NoMemory>
    requires { IsGrownBy seed grown.now }
    ensures { IfOk result (λ expected. IsExpected seed expected) }
{
    let locals = asked(alloc, grown.senders.as_slice(), grown.wants.as_slice())?;
    let demand = demand_text(alloc, grown.names.as_slice(), &grown.routing, &locals)?;
    let wires = Wires::open(alloc, grown.routing.copy()?)?;
    Ok(Expected {
        wires,
        longest: grown.routing.longest(),
        rounds: grown.rounds,
        demand,
    })
}

/// The network of a seed, before anything happened. `NoMemory`: there was no room for it.
pub(crate) fn open<R: Opens>(
    alloc: Global,
    seed: u64,
    routing: Routing,
    names: Vec<EndName>,
) -> Result<World<R>, NoMemory>
    requires routing { routing ≡ grown_net seed }
    requires names { names.items ≡ names_up_to 63 }
    ensures { IfOk result (λ v. StandsBehind R.seen v (first_plan seed)) }
{
    let nodes = R::open_all(alloc, QUARTER, &routing, &[])?;
    World::open(alloc, QUARTER, seed, routing, names, nodes)
}
