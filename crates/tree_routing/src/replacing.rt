//! The hops of all trees, with a tree in the place of another.
ghost use Rattle.std.specs.Prelude.{◌≡◌, ◌++◌, List, not, map, IfOk, OnOk};
ghost use Rattle.std.specs.List.{filter};
ghost use Rattle.std.specs.Ordering.{is_le, is_lt};
ghost use Rattle.tree_model.specs.Trees.{of_tree};
ghost use Rattle.tree_routing.specs.Known.{plain};
ghost use Rattle.tree_routing.specs.Reroutes.{moved, tree_hop};
ghost use Rattle.tree_routing.specs.Routes.{against_tree, AreInOrder};
ghost use Rattle.tree_model.specs.declared.hops.TreeHop.{TreeHop as ATreeHop};

use crate::ask::is_of_tree;
use crate::in_order::{in_order, is_before, is_up_to};
use crate::known::Known;
use rsvp_base::{Addr, NoMemory};
use std::alloc::Global;
use tree_model::{LinkHop, TreeHop};

/// The hops that are kept. `NoMemory`: there was no room for them.
pub(crate) fn plain(alloc: Global, hops: &[Known]) -> Result<Vec<TreeHop>, NoMemory>
    ensures { IfOk result (λ all. all.items ≡ plain hops.now) }
{
    let mut all = Vec::new(alloc);
    for hop in hops {
        all.push(hop.hop)?;
    }
    Ok(all)
}

// The hops of other trees.
fn of_others(
    alloc: Global,
    hops: &[TreeHop],
    group: Addr,
    source: Addr,
) -> Result<Vec<TreeHop>, NoMemory>
    ensures { IfOk result (λ all. all.items ≡ filter (λ r. not (of_tree group source r)) hops.now) }
{
    let mut all = Vec::new(alloc);
    for hop in hops {
        if !is_of_tree(hop, group, source) {
            all.push(*hop)?;
        }
    }
    Ok(all)
}

// Adds the hops of a tree.
fn add_tree(
    all: &mut Vec<TreeHop>,
    group: Addr,
    source: Addr,
    tree: &[LinkHop],
) -> Result<(), NoMemory>
    ensures { OnOk result (all.new.items ≡ all.old.items ++ map (tree_hop group source) tree.now) }
{
    for hop in tree {
        all.push(TreeHop {
            group,
            source,
            hop: *hop,
        })?;
    }
    Ok(())
}

/// The hops of the other trees, and behind them these as the tree of a group and source. `NoMemory`: there was no room for
/// them.
pub(crate) fn moved(
    alloc: Global,
    hops: &[TreeHop],
    group: Addr,
    source: Addr,
    tree: &[LinkHop],
) -> Result<Vec<TreeHop>, NoMemory>
    ensures { IfOk result (λ all. all.items ≡ moved group source tree.now hops.now) }
{
    let mut all = of_others(alloc, hops, group, source)?;
    add_tree(&mut all, group, source, tree)?;
    Ok(all)
}

// Adds the hops that stand before those of a tree.
fn add_before(
    all: &mut Vec<TreeHop>,
    sorted: &[TreeHop],
    group: Addr,
    source: Addr,
) -> Result<(), NoMemory>
    ensures { OnOk result (all.new.items ≡ all.old.items ++ filter (λ r. is_lt (against_tree group source r)) sorted.now) }
{
    for hop in sorted {
        if is_before(hop, group, source) {
            all.push(*hop)?;
        }
    }
    Ok(())
}

// Adds the hops that stand behind those of a tree.
fn add_behind(
    all: &mut Vec<TreeHop>,
    sorted: &[TreeHop],
    group: Addr,
    source: Addr,
) -> Result<(), NoMemory>
    ensures { OnOk result (all.new.items ≡ all.old.items ++ filter (λ r. not (is_le (against_tree group source r))) sorted.now) }
{
    for hop in sorted {
        if !is_up_to(hop, group, source) {
            all.push(*hop)?;
        }
    }
    Ok(())
}

/// The same of the hops in order: those of the tree stand between the others. `NoMemory`: there was no room for them.
pub(crate) fn moved_in_order(
    alloc: Global,
    sorted: &[TreeHop],
    group: Addr,
    source: Addr,
    tree: &[LinkHop],
) -> Result<Vec<TreeHop>, NoMemory>
    ensures { (hops : List ATreeHop) → AreInOrder hops sorted.now → IfOk result (λ all. AreInOrder (moved group source tree.now hops) all.items) }
{
    let mut hops = Vec::new(alloc);
    add_tree(&mut hops, group, source, tree)?;
    let mine = in_order(alloc, hops.as_slice())?;
    let mut all = Vec::new(alloc);
    add_before(&mut all, sorted, group, source)?;
    all.extend_from_slice(mine.as_slice())?;
    add_behind(&mut all, sorted, group, source)?;
    Ok(all)
}
