//! The hops that lead away from a node.
ghost use Rattle.std.specs.Prelude.{◌≡◌, ◌<◌, ◌≤◌, ◌++◌, ℕ, map, IfOk, OnOk};
ghost use Rattle.rsvp_base.specs.Members.{In};
ghost use Rattle.tree_model.specs.Networks.{among};
ghost use Rattle.grown_network.specs.Hops.{hop_down, hop_up, hops_away, hops_down, way_up};

use crate::nodes::{NODES, above, down_end, up_end};
use rsvp_base::NoMemory;
use std::alloc::Global;
use tree_model::LinkHop;

// The hop from a node to the one above it.
fn hop_up(node: u16) -> LinkHop
    requires { 1 ≤ node × (node < 64) }
    ensures { result ≡ hop_up node }
{
    LinkHop {
        from: up_end(node),
        to: down_end(node),
    }
}

// The hop to a node from the one above it.
fn hop_down(node: u16) -> LinkHop
    requires { 1 ≤ node × (node < 64) }
    ensures { result ≡ hop_down node }
{
    LinkHop {
        from: down_end(node),
        to: up_end(node),
    }
}

// The nodes on the way from a node up to node 0.
fn way_up(alloc: Global, root: u16) -> Result<Vec<u16>, NoMemory>
    ensures { IfOk result (λ way. way.items ≡ way_up root) }
{
    let mut way = Vec::new(alloc);
    let mut node = root;
    for _level in 0..6u16 {
        if node != 0 {
            way.push(node)?;
            node = above(node);
        }
    }
    Ok(way)
}

// Whether a node is among these.
fn is_among(node: u16, nodes: &[u16]) -> bool
    ensures { result ≡ among node nodes.now }
{
    nodes.iter().any(|x| *x == node)
}

// Adds the hops up from each of these nodes.
fn add_hops_up(hops: &mut Vec<LinkHop>, way: &[u16]) -> Result<(), NoMemory>
    requires { (k : ℕ) → In k way.now → (1 ≤ k) × (k < 64) }
    ensures { OnOk result (hops.new.items ≡ hops.old.items ++ map hop_up way.now) }
{
    for node in way {
        hops.push(hop_up(*node))?;
    }
    Ok(())
}

// Adds the hops down to all nodes but these and node 0.
fn add_hops_down(hops: &mut Vec<LinkHop>, way: &[u16]) -> Result<(), NoMemory>
    ensures { OnOk result (hops.new.items ≡ hops.old.items ++ hops_down way.now 63) }
{
    for node in 1..NODES {
        if !is_among(node, way) {
            hops.push(hop_down(node))?;
        }
    }
    Ok(())
}

/// All hops that lead away from a node, each behind one that goes into the node that it goes out of, or out of this node.
/// `NoMemory`: there was no room for them.
pub(crate) fn hops_away(alloc: Global, root: u16) -> Result<Vec<LinkHop>, NoMemory>
    requires { root < 64 }
    ensures { IfOk result (λ hops. hops.items ≡ hops_away root) }
{
    let way = way_up(alloc, root)?;
    let mut hops = Vec::new(alloc);
    add_hops_up(&mut hops, way.as_slice())?;
    add_hops_down(&mut hops, way.as_slice())?;
    Ok(hops)
}
