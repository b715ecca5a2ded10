//! The trees that have a hop, in order.
ghost use Rattle.std.specs.Prelude.{◌≡◌, ◌↔◌, ◌<◌, ◌≤◌, length, take, map, IfOk, IfErr, OnOk};
ghost use Rattle.rsvp_base.specs.Rows.{AreRows, HasRowAt, LacksRowAt};
ghost use Rattle.rsvp_base.specs.Sets.{listed};
ghost use Rattle.tree_model.specs.Trees.{tree_keys, key_of, trees_of};
ghost use Rattle.tree_routing.specs.Routes.{as_row, IsWithTree, IsWithoutTree, IsTreePut};

use rsvp_base::{Addr, NoMemory};
use std::alloc::Global;
use std::cmp::Ordering;
use tree_model::TreeHop;

// Trees by group and source.
fn tree_order(a: (Addr, Addr), b: (Addr, Addr)) -> Ordering
    ensures { result ≡ tree_keys.cmp a b }
{
    a.0.cmp(&b.0).then(a.1.cmp(&b.1))
}

// Where the tree stands, or where it would go.
fn search(trees: &[(Addr, Addr)], tree: (Addr, Addr)) -> Result<usize, usize>
    requires { AreRows tree_keys as_row trees.now }
    ensures there { IfOk result (HasRowAt tree_keys as_row trees.now tree) }
    ensures absent { IfErr result (LacksRowAt tree_keys as_row trees.now tree) }
{
    trees.binary_search_by(|row| tree_order(*row, tree))
}

// With one more tree, if it is not there.
fn add(trees: &mut Vec<(Addr, Addr)>, tree: (Addr, Addr)) -> Result<(), NoMemory>
    requires { AreRows tree_keys as_row trees.old.items }
    ensures { OnOk result (IsWithTree trees.old.items tree trees.new.items) }
{
    if let Err(place) = search(trees.as_slice(), tree) {
        trees.insert(place, tree)?;
    }
    Ok(())
}

/// The group and source of each tree that has a hop, in order. `NoMemory`: there was no room for them.
pub(crate) fn trees_of(alloc: Global, hops: &[TreeHop]) -> Result<Vec<(Addr, Addr)>, NoMemory>
    ensures { IfOk result (λ trees. trees.items ≡ trees_of hops.now) }
{
    let mut trees = Vec::new(alloc);
    for hop in hops {
        add(&mut trees, (hop.group, hop.source))?;
    }
    Ok(trees)
}

// Without the tree.
fn take_out(trees: &mut Vec<(Addr, Addr)>, tree: (Addr, Addr))
    requires { AreRows tree_keys as_row trees.old.items }
    ensures { IsWithoutTree trees.old.items tree trees.new.items }
{
    if let Ok(place) = search(trees.as_slice(), tree) {
        let _gone = trees.remove(place);
    }
}

/// With the tree, or without it. `NoMemory`: there was no room for it.
pub(crate) fn put_tree(
    trees: &mut Vec<(Addr, Addr)>,
    tree: (Addr, Addr),
    has_hops: bool,
) -> Result<(), NoMemory>
    requires { AreRows tree_keys as_row trees.old.items }
    ensures { OnOk result (IsTreePut trees.old.items tree has_hops trees.new.items) }
{
    if has_hops {
        return add(trees, tree);
    }
    take_out(trees, tree);
    Ok(())
}
