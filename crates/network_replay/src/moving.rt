//! The trees of a network move.
ghost use Rattle.std.specs.Prelude.{◌≡◌, ◌≤◌, ℕ, IfOk, List, map, vec_len};
ghost use Rattle.tree_model.specs.Trees.{trees_of};
ghost use Rattle.rsvp_base.specs.declared.addr.Addr.{Addr as AnAddr};
ghost use Rattle.tree_model.specs.declared.hops.LinkHop.{LinkHop as AHop};
ghost use Rattle.network_flight.specs.Steps.{Reroute, sent, step};
ghost use Rattle.network_flight.specs.Worlds.{World as AWorld, route_of};
ghost use Rattle.network_replay.specs.Agreeing.{AreNodes};
ghost use Rattle.network_replay.specs.Mailing.{ArePut};
ghost use Rattle.network_replay.specs.Moving.{AreMoving};
ghost use Rattle.network_replay.specs.Routed.{AreRouted, bare, tree_of, trees_in};

use crate::mail::Mail;
use crate::router::Router;
use router_rules::Route;
use rsvp_base::NoMemory;
use std::alloc::Global;
use tree_routing::Routing;

/// A route for each tree that has a hop. `NoMemory`: there was no room for them.
pub(crate) fn routes_of(alloc: Global, routing: &Routing) -> Result<Vec<Route>, NoMemory>
    ensures { IfOk result (λ v. trees_in v.items ≡ trees_of routing.now.hops) }
{
    let mut routes = Vec::new(alloc);
    while let Some((group, source)) = routing.tree(routes.len()) {
        routes.push(Route {
            group,
            source,
            inward: None,
            outward: 0,
        })?;
    }
    Ok(routes)
}

/// Each node in order has routes as its network has them now, and posts what it sends for it. `routes` has one for each tree of
/// which the nodes have one.
pub(crate) fn move_all<R: Router>(nodes: &mut Vec<R>, mail: &mut Mail, routes: &mut Vec<Route>)
    requires routed { AreRouted (trees_in routes.old.items) (map R.seen.place nodes.old.items) }
    requires few { vec_len nodes.old ≤ 256 }
    ensures nodes { (q : ℕ) (w : AWorld) (g s : AnAddr) (hops : List AHop)
        → AreMoving R.seen q mail.old.net (trees_in routes.old.items) nodes.old.items g s hops w
        → AreNodes R.seen q (step q (Reroute g s hops) w) nodes.new.items }
    ensures put { (q : ℕ) (w : AWorld) (g s : AnAddr) (hops : List AHop)
        → AreMoving R.seen q mail.old.net (trees_in routes.old.items) nodes.old.items g s hops w
        → ArePut mail.old mail.new (map (λ x. x.0) (sent q (Reroute g s hops) w)) }
    ensures places { map bare (map R.seen.place nodes.new.items) ≡ map bare (map R.seen.place nodes.old.items) }
    ensures routed { AreRouted (trees_in routes.old.items) (map R.seen.place nodes.new.items) }
    ensures trees { trees_in routes.new.items ≡ trees_in routes.old.items }
    ensures net { mail.new.net ≡ mail.old.net }
{
    // The proof sees here that what is in flight has room.
    let _wires = mail.wires();
    for n in 0..nodes.len() {
        put_routes(mail.wires().routing(), n as u16, routes);
        mail.set_from(n as u16);
        nodes[n].route(routes.as_slice(), mail);
        // The proof sees here that what was posted is in range.
        let _full = mail.is_full();
    }
}

// The routes are those of a node in a network, for the same trees.
fn put_routes(routing: &Routing, node: u16, routes: &mut Vec<Route>)
    ensures { routes.new.items ≡ map (route_of routing.now node) (trees_in routes.old.items) }
{
    for k in 0..routes.len() {
        move_route(routing, node, &mut routes[k]);
    }
}

// The route is that of a node in a network, for the same tree.
fn move_route(routing: &Routing, node: u16, route: &mut Route)
    ensures { route.new ≡ route_of routing.now node (tree_of route.old) }
{
    route.inward = routing.inward(node, route.group, route.source);
    route.outward = routing.outward(node, route.group, route.source);
}
