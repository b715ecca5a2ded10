//! Routers that a stream can drive.
ghost use Rattle.std.specs.Prelude.{◌≡◌, ◌≤◌, ℕ, length, IfOk};
ghost use Rattle.rsvp_base.specs.Rows.{AreRows};
ghost use Rattle.router_rules.specs.Facts.{no_facts};
ghost use Rattle.node_stream.specs.Placing.{place_of, tree_row};
ghost use Rattle.node_stream.specs.Rules.{tree_keys};

use crate::placing::Place;
use network_replay::Router;
use rsvp_base::NoMemory;
use std::alloc::Global;

/// Routers that a stream can drive.
pub trait Serves: Router + Drop {
    /// A router without facts, which stands there: a quarter of its period is 1 to 15,000 milliseconds, it has at most 16 interfaces,
    /// and at most one route of a group and source, in their order. It takes no memory later. `NoMemory`: there was none for it.
    fn open_alone(alloc: Global, place: Place) -> Result<Self, NoMemory>
        requires some { 1 ≤ place.quarter }
        requires quick { place.quarter ≤ 15000 }
        requires few { length place.ifaces.items ≤ 16 }
        requires routed { AreRows tree_keys tree_row place.routes.items }
        ensures place { IfOk result (λ r. Self.seen.place r ≡ place_of place) }
        ensures first { IfOk result (λ r. (c : ℕ) → Self.seen.facts r c ≡ no_facts) };
}
