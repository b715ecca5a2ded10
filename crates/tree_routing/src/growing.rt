//! A tree grows by a hop.
ghost use Rattle.std.specs.Prelude.{◌≡◌, ◌↔◌, ◌≤◌, ℕ, length, IsTrue};
ghost use Rattle.tree_routing.specs.Known.{net_of, vertex_at, vertex_before};
ghost use Rattle.tree_routing.specs.Answers.{Fits};

use crate::ask::{is_alone, is_linked, is_reached, node_of, vertex_at, vertex_before};
use crate::known::Known;
use crate::link::Link;
use tree_model::{End, TreeHop};

/// Whether the tree of the hop can grow by it.
pub(crate) fn can_grow(ends: &[End], links: &[Link], hops: &[Known], hop: &TreeHop) -> bool
    ensures { (nodes : ℕ) → IsTrue result ↔ Fits (net_of nodes ends.now links.now hops.now) hop.now }
{
    let TreeHop { group, source, hop } = *hop;
    is_linked(links, hop)
        && is_reached(ends, hops, group, source, node_of(ends, hop.from))
        && !is_reached(ends, hops, group, source, node_of(ends, hop.to))
        && is_alone(links, hops, group, source, hop.from)
}

/// What is kept of a hop.
pub(crate) fn know(ends: &[End], hops: &[Known], hop: TreeHop) -> Known
    requires { length hops.now ≤ 8192 }
    ensures hop { result.hop ≡ hop }
    ensures vertex { result.vertex ≡ vertex_at hops.now hop.group hop.hop }
    ensures before { result.before ≡ vertex_before ends.now hop hops.now }
{
    Known {
        hop,
        vertex: vertex_at(hops, hop.group, hop.hop),
        before: vertex_before(ends, hops, &hop),
    }
}
