//! What is kept of the hops of a group, with a tree in the place of another.
ghost use Rattle.std.specs.Prelude.{◌≡◌, ◌≤◌, ◌+◌, ◌++◌, ◌∷◌, [], ℕ, List, length, map, IfOk, IfErr, OnOk};
ghost use Rattle.std.specs.List.{filter};
ghost use Rattle.tree_model.specs.Trees.{tree, IsGrown};
ghost use Rattle.tree_routing.specs.Known.{plain, net_with, AreKnown};
ghost use Rattle.tree_routing.specs.Reroutes.{is_beside, part, placed, with_before, ArePlaced, IsRefused, GrownAnswer, rerouted};
ghost use Rattle.tree_model.specs.declared.hops.TreeHop.{TreeHop as ATreeHop};

use crate::ask::{vertex_at, vertex_before};
use crate::growing::can_grow;
use crate::hop_err::HopErr;
use crate::known::Known;
use crate::link::Link;
use rsvp_base::{Addr, NoMemory};
use std::alloc::Global;
use tree_model::{End, LinkHop, TreeHop};

// Adds a hop at its place; the hop before it is looked for later.
fn place(hops: &mut Vec<Known>, hop: TreeHop) -> Result<(), NoMemory>
    requires { length hops.old.items ≤ 8192 }
    ensures { OnOk result (hops.new.items ≡ hops.old.items ++ placed hops.old.items hop ∷ []) }
{
    let vertex = vertex_at(hops.as_slice(), hop.group, hop.hop);
    hops.push(Known {
        hop,
        vertex,
        before: None,
    })?;
    Ok(())
}

// Whether it is a hop of another tree of the group.
fn is_beside(hop: &TreeHop, group: Addr, source: Addr) -> bool
    ensures { result ≡ is_beside group source hop.now }
{
    hop.group.0 == group.0 && hop.source.0 != source.0
}

// The hops of the other trees of the group, in their order. `NoMemory`: there was no room for them.
fn others(
    alloc: Global,
    hops: &[TreeHop],
    group: Addr,
    source: Addr,
) -> Result<Vec<Known>, NoMemory>
    requires { length hops.now ≤ 8192 }
    ensures hops { IfOk result (λ all. plain all.items ≡ filter (is_beside group source) hops.now) }
    ensures placed { IfOk result (λ all. ArePlaced all.items) }
{
    let mut all = Vec::new(alloc);
    for hop in hops {
        if is_beside(hop, group, source) {
            place(&mut all, *hop)?;
        }
    }
    Ok(all)
}

// Adds the hops of a tree behind those of other trees.
fn grow(
    ends: &[End],
    links: &[Link],
    all: &mut Vec<Known>,
    group: Addr,
    source: Addr,
    hops: &[LinkHop],
) -> Result<(), HopErr>
    requires placed { ArePlaced all.old.items }
    requires none { tree (plain all.old.items) group source ≡ [] }
    requires few { length all.old.items + length hops.now ≤ 8192 }
    ensures { (nodes : ℕ) (rs : List ATreeHop) → GrownAnswer (net_with nodes ends.now links.now rs) group source hops.now all.old.items all.new.items result }
{
    for hop in hops {
        let hop = TreeHop {
            group,
            source,
            hop: *hop,
        };
        if !can_grow(ends, links, all.as_slice(), &hop) {
            return Err(HopErr::NotTree);
        }
        if place(all, hop).is_err() {
            return Err(HopErr::NoMemory);
        }
    }
    Ok(())
}

// The same hops, each with the hop before it in its tree. `NoMemory`: there was no room for them.
fn with_befores(alloc: Global, ends: &[End], hops: &[Known]) -> Result<Vec<Known>, NoMemory>
    ensures { IfOk result (λ all. all.items ≡ map (with_before ends.now hops.now) hops.now) }
{
    let mut all = Vec::new(alloc);
    for hop in hops {
        all.push(Known {
            hop: hop.hop,
            vertex: hop.vertex,
            before: vertex_before(ends, hops, &hop.hop),
        })?;
    }
    Ok(all)
}

/// What is kept of the hops of a group, where these are the hops of all trees before: those of the other trees of the group,
/// and behind them these as the tree of the group and source.
pub(crate) fn with_tree(
    alloc: Global,
    ends: &[End],
    links: &[Link],
    hops: &[TreeHop],
    group: Addr,
    source: Addr,
    tree: &[LinkHop],
) -> Result<Vec<Known>, HopErr>
    requires few { length hops.now ≤ 8192 }
    requires room { length (rerouted (net_with 0 ends.now links.now hops.now) group source tree.now).hops ≤ 8192 }
    ensures hops { IfOk result (λ all. plain all.items ≡ (part group (rerouted (net_with 0 ends.now links.now hops.now) group source tree.now)).hops) }
    ensures known { IfOk result (λ all. AreKnown ends.now all.items) }
    ensures grown { (nodes : ℕ) → IfOk result (λ all. IsGrown (net_with nodes ends.now links.now hops.now) source tree.now) }
    ensures err { (nodes : ℕ) → IfErr result (IsRefused (net_with nodes ends.now links.now hops.now) source tree.now) }
{
    let Ok(mut all) = others(alloc, hops, group, source) else {
        return Err(HopErr::NoMemory);
    };
    grow(ends, links, &mut all, group, source, tree)?;
    let Ok(known) = with_befores(alloc, ends, all.as_slice()) else {
        return Err(HopErr::NoMemory);
    };
    Ok(known)
}
