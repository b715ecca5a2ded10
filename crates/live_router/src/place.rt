//! Where a node of a network stands.
ghost use Rattle.std.specs.Prelude.{◌≡◌, ◌≤◌, length, map, IfOk};
ghost use Rattle.tree_model.specs.Trees.{trees_of};
ghost use Rattle.network_model.specs.Worlds.{config_of, ifaces_at, route_of};
ghost use Rattle.tree_model.specs.Networks.{ends_of};

use router_rules::Route;
use router_state::Config;
use rsvp_base::{Addr, Iface, NoMemory};
use std::alloc::Global;
use tree_model::End;
use tree_routing::Routing;

/// Where a node of a network stands: `quarter`, a quarter of the refresh period, in milliseconds, which is at most a minute; the
/// interfaces of its ends; and a route for each tree. `NoMemory`: there was no room for them.
pub fn config_at(
    alloc: Global,
    quarter: u32,
    routing: &Routing,
    node: u16,
) -> Result<Config, NoMemory>
    requires long { 1 ≤ quarter }
    requires short { quarter ≤ 15000 }
    ensures { IfOk result (λ p. p ≡ config_of quarter routing.now (trees_of routing.now.hops) node) }
{
    let ifaces = ifaces_of(alloc, routing.ends(), node)?;
    let routes = routes_at(alloc, routing, node)?;
    Ok(Config::new(quarter, ifaces, routes))
}

// The interfaces of the node that has those of these ends. `NoMemory`: there was no room for them.
fn ifaces_of(alloc: Global, ends: &[End], node: u16) -> Result<Vec<Iface>, NoMemory>
    ensures { IfOk result (λ ifaces. ifaces.items ≡ ifaces_at ends.now (ends_of ends.now node)) }
{
    let mut ifaces = Vec::new(alloc);
    for end in ends {
        if end.node == node {
            ifaces.push(end.iface)?;
        }
    }
    Ok(ifaces)
}

// A route of the node for each tree. `NoMemory`: there was no room for them.
fn routes_at(alloc: Global, routing: &Routing, node: u16) -> Result<Vec<Route>, NoMemory>
    ensures { IfOk result (λ v. v.items ≡ map (route_of routing.now node) (trees_of routing.now.hops)) }
{
    let mut routes = Vec::new(alloc);
    while let Some((group, source)) = routing.tree(routes.len()) {
        routes.push(route_at(routing, node, group, source))?;
    }
    Ok(routes)
}

// How the node lies in the tree of a group and source.
fn route_at(routing: &Routing, node: u16, group: Addr, source: Addr) -> Route
    ensures { result ≡ route_of routing.now node (group, source) }
{
    Route {
        group,
        source,
        inward: routing.inward(node, group, source),
        outward: routing.outward(node, group, source),
    }
}
