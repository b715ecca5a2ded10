//! Senders whose tree goes nowhere.
ghost use Rattle.std.specs.Prelude.{◌≡◌, IfOk};
ghost use Rattle.network_demand.specs.Strays.{idle, is_idle};

use crate::kept::keep_if;
use rsvp_base::NoMemory;
use std::alloc::Global;
use tree_model::LocalSender;
use tree_routing::Routing;

/// The senders, by place, whose tree has no hop out of their node: what they send reaches nobody. `NoMemory`: there was no room for
/// them.
pub(crate) fn idle_among(
    alloc: Global,
    routing: &Routing,
    senders: &[LocalSender],
) -> Result<Vec<usize>, NoMemory>
    ensures { IfOk result (λ found. found.items ≡ idle routing.now senders.now) }
{
    let mut found = Vec::new(alloc);
    for (place, sender) in senders.iter().enumerate() {
        keep_if(&mut found, place, is_idle(routing, sender))?;
    }
    Ok(found)
}

// Whether the tree of a sender has no hop out of its node.
fn is_idle(routing: &Routing, sender: &LocalSender) -> bool
    ensures { result ≡ is_idle routing.now sender.now }
{
    routing.outward(sender.node, sender.session.group, sender.sender.addr) == 0
}
