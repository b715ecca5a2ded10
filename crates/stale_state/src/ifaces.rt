//! The interfaces of a node.
ghost use Rattle.std.specs.Prelude.{◌≡◌, IfOk};
ghost use Rattle.stale_state.specs.AtNodes.{ifaces_at_node};

use rsvp_base::{Iface, NoMemory};
use std::alloc::Global;
use tree_model::End;

/// The interfaces of the node that has those of these ends. `NoMemory`: there was no room for them.
pub(crate) fn ifaces_of(alloc: Global, ends: &[End], node: u16) -> Result<Vec<Iface>, NoMemory>
    ensures { IfOk result (λ ifaces. ifaces.items ≡ ifaces_at_node ends.now node) }
{
    let mut ifaces = Vec::new(alloc);
    for end in ends {
        if end.node == node {
            ifaces.push(end.iface)?;
        }
    }
    Ok(ifaces)
}
