//! Where a tree comes into a node and leaves it.
ghost use Rattle.std.specs.Prelude.{◌≡◌, ◌↔◌, ◌⊎◌, ◌<◌, ◌≤◌, ℕ, length, map};
ghost use Rattle.std.specs.Int.{bit_at};
ghost use Rattle.tree_model.specs.Networks.{iface_of, ends_of};
ghost use Rattle.tree_model.specs.Trees.{first_by, goes_into, end_into};
ghost use Rattle.rsvp_base.specs.Members.{In};
ghost use Rattle.tree_model.specs.declared.hops.TreeHop.{TreeHop};
ghost use Rattle.tree_routing.specs.Routes.{IsWayOf, IsWay};

use crate::ask::node_of;
use tree_model::{End, TreeHop};

/// The end by which the first of these hops that goes into the node does so.
pub(crate) fn hop_into(ends: &[End], hops: &[TreeHop], node: u16) -> Option<u16>
    ensures { result ≡ end_into (first_by (goes_into ends.now node) (map (λ r. r.hop) hops.now)) }
{
    for hop in hops {
        if node_of(ends, hop.hop.to) == node {
            return Some(hop.hop.to);
        }
    }
    None
}

/// How many of the ends are of the node.
pub(crate) fn count_of(ends: &[End], node: u16) -> u8
    requires { length (ends_of ends.now node) ≤ 16 }
    ensures { result ≡ length (ends_of ends.now node) }
{
    let mut count = 0;
    for end in ends {
        if end.node == node {
            count += 1;
        }
    }
    count
}

/// The number of an end among the interfaces of its node.
pub(crate) fn iface_of(ends: &[End], end: u16) -> u8
    requires few { (n : ℕ) → length (ends_of ends.now n) ≤ 16 }
    requires inside { end < length ends.now }
    ensures number { result ≡ iface_of ends.now end }
    ensures few { result < 16 }
{
    count_of(&ends[..end as usize], node_of(ends, end))
}

// The set of interfaces with one more.
fn with_way(ways: u16, iface: u8) -> u16
    requires { iface < 16 }
    ensures { (i : ℕ) → (bit_at result i ≡ 1) ↔ ((i ≡ iface) ⊎ (bit_at ways i ≡ 1)) }
{
    ways | 1 << iface
}

// The interfaces by which hops leave the node, with that of one more hop.
fn with_hop(ends: &[End], hop: &TreeHop, node: u16, ways: u16) -> u16
    requires few { (n : ℕ) → length (ends_of ends.now n) ≤ 16 }
    requires inside { hop.now.hop.from < length ends.now }
    ensures { (i : ℕ) → (bit_at result i ≡ 1) ↔ (IsWayOf ends.now node hop.now i ⊎ (bit_at ways i ≡ 1)) }
{
    if node_of(ends, hop.hop.from) == node {
        return with_way(ways, iface_of(ends, hop.hop.from));
    }
    ways
}

/// The interfaces by which these hops leave the node: bit i stands for interface i.
pub(crate) fn ways_out(ends: &[End], hops: &[TreeHop], node: u16) -> u16
    requires few { (n : ℕ) → length (ends_of ends.now n) ≤ 16 }
    requires inside { (r : TreeHop) → In r hops.now → r.hop.from < length ends.now }
    ensures { (i : ℕ) → (bit_at result i ≡ 1) ↔ IsWay ends.now node hops.now i }
{
    let mut ways = 0;
    for hop in hops {
        ways = with_hop(ends, hop, node, ways);
    }
    ways
}
