//! Paths, counted by senders and ends.
ghost use Rattle.std.specs.Prelude.{◌≡◌, ◌*◌, ◌==◌, ◌≤◌, length, sum_by, IfOk};
ghost use Rattle.std.specs.List.{list_any};
ghost use Rattle.tree_model.specs.Networks.{peers};
ghost use Rattle.tree_routing.specs.Order.{AreByRank};
ghost use Rattle.network_demand.specs.Counts.{all_copies, copies, is_in_tree, paths_of, tree_hops};

use rsvp_base::{Addr, NoMemory};
use std::alloc::Global;
use tree_model::{LinkHop, LocalSender};
use tree_routing::{GroupHop, Routing};

/// The Paths of all these senders at all nodes; these are all hops by rank. `NoMemory`: there was no room to count.
pub(crate) fn all_paths(
    alloc: Global,
    routing: &Routing,
    order: &[GroupHop],
    senders: &[LocalSender],
) -> Result<u128, NoMemory>
    requires { AreByRank routing.now order.now }
    ensures paths { IfOk result (λ n. n ≡ sum_by (paths_of routing.now) senders.now) }
    ensures few { IfOk result (λ n. n ≤ length senders.now * 32768) }
{
    let mut sum: u128 = 0;
    for sender in senders {
        sum += paths_of(alloc, routing, order, sender)? as u128;
    }
    Ok(sum)
}

// The Paths of a sender at all nodes.
fn paths_of(
    alloc: Global,
    routing: &Routing,
    order: &[GroupHop],
    sender: &LocalSender,
) -> Result<usize, NoMemory>
    requires { AreByRank routing.now order.now }
    ensures paths { IfOk result (λ n. n ≡ paths_of routing.now sender.now) }
    ensures few { IfOk result (λ n. n ≤ 32768) }
{
    let hops = tree_hops(
        alloc,
        routing,
        order,
        sender.session.group,
        sender.sender.addr,
    )?;
    Ok(all_copies(routing, hops.as_slice()))
}

// The hops of the tree of a group and a source.
fn tree_hops(
    alloc: Global,
    routing: &Routing,
    order: &[GroupHop],
    group: Addr,
    source: Addr,
) -> Result<Vec<LinkHop>, NoMemory>
    ensures { IfOk result (λ hops. hops.items ≡ tree_hops routing.now order.now group source) }
{
    let mut hops = Vec::new(alloc);
    for one in order {
        if is_in_tree(routing, group, source, one) {
            hops.push(one.hop)?;
        }
    }
    Ok(hops)
}

// Whether a hop is one of the tree of a group and a source.
fn is_in_tree(routing: &Routing, group: Addr, source: Addr, one: &GroupHop) -> bool
    ensures { result ≡ is_in_tree routing.now group source one.now }
{
    one.group.0 == group.0 && routing.has_hop(group, source, one.hop)
}

// The Paths of a tree with these hops, over all ends.
fn all_copies(routing: &Routing, hops: &[LinkHop]) -> usize
    ensures copies { result ≡ all_copies routing.now hops.now }
    ensures few { result ≤ 32768 }
{
    let mut sum = 0;
    for end in 0..count_of_ends(routing) {
        sum += copies(routing, hops, end);
    }
    sum
}

// How many ends there are.
fn count_of_ends(routing: &Routing) -> u16
    ensures count { result ≡ length routing.now.ends }
    ensures few { result ≤ 4096 }
{
    routing.ends().len() as u16
}

// Over an end a Path to each other end of its link, if one of these hops goes out of it.
fn copies(routing: &Routing, hops: &[LinkHop], end: u16) -> usize
    ensures copies { result ≡ copies routing.now hops.now end }
    ensures few { result ≤ 8 }
{
    if leaves_by(hops, end) {
        return width(routing, end);
    }
    0
}

// Whether one of these hops goes out of an end.
fn leaves_by(hops: &[LinkHop], end: u16) -> bool
    ensures { result ≡ list_any (λ h. h.from == end) hops.now }
{
    for hop in hops {
        if hop.from == end {
            return true;
        }
    }
    false
}

// How many other ends the link of an end has.
fn width(routing: &Routing, end: u16) -> usize
    ensures width { result ≡ length (peers routing.now.links end) }
    ensures few { result ≤ 8 }
{
    let _nodes = routing.nodes();
    for k in 0..8 {
        if routing.far(end, k).is_none() {
            return k;
        }
    }
    8
}
