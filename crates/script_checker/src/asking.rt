//! What the lines ask of their network.
ghost use Rattle.std.specs.Prelude.{◌≡◌, IfOk};

use crate::checker::Checker;
use network_demand::Locals;
use rsvp_base::{EndName, NoMemory};
use script_demand::Asks;
use std::alloc::Global;
use tree_model::LocalSender;
use tree_routing::Routing;

impl Asks for Checker {
    fn names(&self) -> &[EndName] {
        self.state.end_names.as_slice()
    }

    fn routing(&self) -> Result<Routing, NoMemory> {
        match &self.state.force {
            Some(routing) => routing.copy(),
            None => self.state.topology.copy()?.close(),
        }
    }

    fn locals(&self) -> Result<Locals, NoMemory> {
        Ok(Locals {
            senders: senders(self.state.alloc, self.state.senders.as_slice())?,
            wants: self.state.wants.to_vec(self.state.alloc)?,
        })
    }
}

// These senders once more.
fn senders(alloc: Global, from: &[LocalSender]) -> Result<Vec<LocalSender>, NoMemory>
    ensures { IfOk result (λ to. to.items ≡ from.now) }
{
    from.to_vec(alloc).map_err(|_| NoMemory)
}
