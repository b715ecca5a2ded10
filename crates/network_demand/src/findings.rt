//! All that is found.
ghost use Rattle.std.specs.Prelude.{◌↔◌, IfOk};
ghost use Rattle.network_demand.specs.Asked.{locals_of};
ghost use Rattle.network_demand.specs.Demands.{AreLocals};
ghost use Rattle.tree_model.specs.Goals.{DemandsFit};
ghost use Rattle.network_demand.specs.Findings.{AreFindings};
ghost use Rattle.network_demand.specs.Misfits.{AreNone};

use crate::askers::{Asker, askers};
use crate::end_book::EndBook;
use crate::ends::demand;
use crate::idle::idle_among;
use crate::late::{Begun, Starved, starved_among};
use crate::locals::Locals;
use crate::misfits::{Misfits, misfits_of};
use rsvp_base::NoMemory;
use std::alloc::Global;
use tree_routing::Routing;

/// What is found in what hosts ask of a network.
#[derive(Drop)]
pub struct Findings {
    /// What each end owes, by its number.
    pub owed: Vec<EndBook>,
    /// What does not fit.
    pub misfits: Misfits,
    /// Each want, in order, and where it asks.
    pub askers: Vec<Asker>,
    /// What starves, by who came late.
    pub starved: Vec<Starved>,
    /// The senders, by place, whose tree has no hop out of their node.
    pub idle: Vec<usize>,
}

/// Finds what does not fit in what hosts ask of a network, who asks where, what starves, and who meets nobody. `begun` are those who
/// ask, in the order in which they began. `NoMemory`: there was no room for it.
pub fn find_all(
    alloc: Global,
    routing: &Routing,
    locals: &Locals,
    begun: &[Begun],
) -> Result<Findings, NoMemory>
    requires { AreLocals routing.now (locals_of locals.now) }
    ensures found { IfOk result (λ f. AreFindings routing.now (locals_of locals.now) begun.now f) }
    // A misfit is found if and only if the demands do not fit.
    ensures fits { IfOk result (λ f. AreNone f.misfits ↔ DemandsFit routing.now (locals_of locals.now)) }
{
    let demand = demand(alloc, routing, locals)?;
    let misfits = misfits_of(alloc, &demand, routing, locals)?;
    let askers = askers(alloc, routing, locals)?;
    let starved = starved_among(alloc, routing.ends(), begun, askers.as_slice())?;
    let idle = idle_among(alloc, routing, locals.senders.as_slice())?;
    Ok(Findings {
        owed: demand.ends,
        misfits,
        askers,
        starved,
        idle,
    })
}
