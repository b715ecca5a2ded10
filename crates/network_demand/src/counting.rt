//! Paths and Resvs together.
ghost use Rattle.std.specs.Prelude.{◌≡◌, IfOk};
ghost use Rattle.network_demand.specs.Asked.{locals_of};
ghost use Rattle.network_demand.specs.Demands.{AreLocals};
ghost use Rattle.network_demand.specs.Overhead.{overhead};

use crate::locals::Locals;
use crate::paths::all_paths;
use crate::resvs::all_resvs;
use crate::sessions::sessions_of;
use rsvp_base::NoMemory;
use std::alloc::Global;
use tree_routing::Routing;

/// The refresh overhead of a network, by what its hosts ask of it: each node refreshes a Path of each sender over each link by which the
/// sender's tree leaves it, and a Resv of each session and style back over each hop over which something is wanted. `NoMemory`: there was
/// no room to count.
pub fn overhead(alloc: Global, routing: &Routing, locals: &Locals) -> Result<u128, NoMemory>
    requires { AreLocals routing.now (locals_of locals.now) }
    ensures { IfOk result (λ n. n ≡ overhead routing.now (locals_of locals.now)) }
{
    let _nodes = routing.nodes();
    let order = routing.by_rank();
    let sessions = sessions_of(alloc, locals.senders.as_slice())?;
    let paths = all_paths(alloc, routing, order, locals.senders.as_slice())?;
    let resvs = all_resvs(alloc, routing, order, locals, sessions.as_slice())?;
    Ok(paths + resvs)
}
