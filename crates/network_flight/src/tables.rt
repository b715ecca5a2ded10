//! Tables of ends: those of each node, and those on the other side of each end.
ghost use Rattle.std.specs.Prelude.{◌≡◌, ◌≤◌, ◌<◌, ℕ, length, map, IfOk};
ghost use Rattle.std.specs.List.{range_with_len};
ghost use Rattle.tree_model.specs.Networks.{ends_of, iface_of, peers};

use rsvp_base::NoMemory;
use std::alloc::Global;
use tree_routing::{End, Routing};

/// The ends of each node, by number. `NoMemory`: there was no room for them.
pub(crate) fn ends_by_node(
    alloc: Global,
    ends: &[End],
    nodes: u16,
) -> Result<Vec<Vec<u16>>, NoMemory>
    requires { length ends.now ≤ 4096 }
    ensures { IfOk result (λ t. map (λ v. v.items) t.items ≡ map (ends_of ends.now) (range_with_len 0 nodes)) }
{
    let mut table = Vec::new(alloc);
    for node in 0..nodes {
        let found = ends_of(alloc, ends, node)?;
        table.push(found)?;
    }
    Ok(table)
}

// The ends of a node, by number.
fn ends_of(alloc: Global, ends: &[End], node: u16) -> Result<Vec<u16>, NoMemory>
    requires { length ends.now ≤ 4096 }
    ensures { IfOk result (λ v. v.items ≡ ends_of ends.now node) }
{
    let mut found = Vec::new(alloc);
    for (number, end) in ends.iter().enumerate() {
        if end.node == node {
            found.push(number as u16)?;
        }
    }
    Ok(found)
}

/// The interface that each end is. `NoMemory`: there was no room for them.
pub(crate) fn ifaces(alloc: Global, ends: &[End]) -> Result<Vec<u8>, NoMemory>
    requires few { (n : ℕ) → length (ends_of ends.now n) ≤ 16 }
    requires short { length ends.now ≤ 4096 }
    ensures { IfOk result (λ t. t.items ≡ map (iface_of ends.now) (range_with_len 0 (length ends.now))) }
{
    let mut table = Vec::new(alloc);
    for end in 0..ends.len() {
        let iface = count_of(&ends[..end], ends[end].node);
        table.push(iface)?;
    }
    Ok(table)
}

// How many of the ends are of the node.
fn count_of(ends: &[End], node: u16) -> u8
    requires { length (ends_of ends.now node) ≤ 16 }
    ensures { result ≡ length (ends_of ends.now node) }
{
    let mut count = 0;
    for end in ends {
        if end.node == node {
            count += 1;
        }
    }
    count
}

/// The other ends of the link of each end, in order. `NoMemory`: there was no room for them.
pub(crate) fn peers_by_end(alloc: Global, routing: &Routing) -> Result<Vec<Vec<u16>>, NoMemory>
    ensures { IfOk result (λ t. map (λ v. v.items) t.items ≡ map (peers routing.now.links) (range_with_len 0 (length routing.now.ends))) }
{
    let mut table = Vec::new(alloc);
    let _few = few_ends(routing);
    for end in 0..routing.ends().len() {
        let others = peers_of(alloc, routing, end as u16)?;
        table.push(others)?;
    }
    Ok(table)
}

// The other ends of the link of an end, in order.
fn peers_of(alloc: Global, routing: &Routing, end: u16) -> Result<Vec<u16>, NoMemory>
    ensures { IfOk result (λ v. v.items ≡ peers routing.now.links end) }
{
    let mut found = Vec::new(alloc);
    while let Some(other) = routing.far(end, found.len()) {
        found.push(other)?;
    }
    Ok(found)
}

// How many ends there are.
pub(crate) fn few_ends(routing: &Routing) -> usize
    ensures number { result ≡ length routing.now.ends }
    ensures few { length routing.now.ends ≤ 4096 }
    ensures nodes { (n : ℕ) → length (ends_of routing.now.ends n) ≤ 16 }
{
    routing.ends().len()
}
