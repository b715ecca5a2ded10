//! A topology or a routing once more.
ghost use Rattle.std.specs.Prelude.{◌≡◌, IfOk};

use crate::routing::Routing;
use crate::topology::Topology;
use rsvp_base::NoMemory;

impl Topology {
    /// The same topology once more. `NoMemory`: there was no room for it.
    pub fn copy(&self) -> Result<Topology, NoMemory>
        ensures { IfOk result (λ copy. copy ≡ self.now) }
    {
        Ok(Topology {
            alloc: self.alloc,
            nodes: self.nodes,
            ends: self.ends.as_slice().to_vec(self.alloc)?,
            links: self.links.as_slice().to_vec(self.alloc)?,
            hops: self.hops.as_slice().to_vec(self.alloc)?,
        })
    }
}

impl Routing {
    /// The same routing once more. `NoMemory`: there was no room for it.
    pub fn copy(&self) -> Result<Routing, NoMemory>
        ensures { IfOk result (λ copy. copy ≡ self.now) }
    {
        Ok(Routing {
            alloc: self.alloc,
            nodes: self.nodes,
            ends: self.ends.as_slice().to_vec(self.alloc)?,
            links: self.links.as_slice().to_vec(self.alloc)?,
            hops: self.hops.as_slice().to_vec(self.alloc)?,
            chain: self.chain,
            ranked: self.ranked.as_slice().to_vec(self.alloc)?,
            order: self.order.as_slice().to_vec(self.alloc)?,
            trees: self.trees.as_slice().to_vec(self.alloc)?,
            sorted: self.sorted.as_slice().to_vec(self.alloc)?,
        })
    }
}
