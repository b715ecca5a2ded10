//! Questions to lists of ends, links and hops.
ghost use Rattle.std.specs.Prelude.{◌≡◌, ◌≤◌, ◌==◌, not, length, map};
ghost use Rattle.std.specs.List.{filter, list_all, list_any};
ghost use Rattle.tree_model.specs.Networks.{node_of, owner, among, link_of};
ghost use Rattle.tree_model.specs.Trees.{of_tree, tree, is_linked, is_reached, sends_alone, goes_into};
ghost use Rattle.tree_routing.specs.Known.{plain, link_ends, is_pair, vertex_at, comes_to, vertex_before};
ghost use Rattle.tree_routing.specs.Found.{are_apart, is_at, is_free, leaves_link};

use crate::known::Known;
use crate::link::Link;
use rsvp_base::Addr;
use tree_model::{End, LinkHop, TreeHop};

/// The node of an end; 0 where there is no such end.
pub(crate) fn node_of(ends: &[End], end: u16) -> u16
    ensures { result ≡ node_of ends.now end }
{
    match ends.get(end as usize) {
        Some(end) => end.node,
        None => 0,
    }
}

/// The node that has the end of this address.
pub(crate) fn owner(ends: &[End], address: Addr) -> Option<u16>
    ensures { result ≡ owner ends.now address }
{
    for end in ends {
        if end.iface.addr.0 == address.0 {
            return Some(end.node);
        }
    }
    None
}

// Whether an end is one of these.
fn is_among(link: &[u16], end: u16) -> bool
    ensures { result ≡ among end link.now }
{
    for other in link {
        if *other == end {
            return true;
        }
    }
    false
}

/// The ends of the link that an end is in, in order; none where it is in no link.
pub(crate) fn link_of(links: &[Link], end: u16) -> &[u16]
    ensures { result.now ≡ link_of (map link_ends links.now) end }
{
    for link in links {
        if is_among(link.as_slice(), end) {
            return link.as_slice();
        }
    }
    &[]
}

// Whether an end is there and in no link.
fn is_free(ends: &[End], links: &[Link], end: u16) -> bool
    ensures { result ≡ is_free ends.now (map link_ends links.now) end }
{
    (end as usize) < ends.len() && link_of(links, end).is_empty()
}

/// Whether each of these ends is there and in no link.
pub(crate) fn are_free(ends: &[End], links: &[Link], link: &[u16]) -> bool
    ensures { result ≡ list_all (is_free ends.now (map link_ends links.now)) link.now }
{
    for end in link {
        if !is_free(ends, links, *end) {
            return false;
        }
    }
    true
}

// Whether one of these ends is of the node.
fn is_at_one(ends: &[End], link: &[u16], node: u16) -> bool
    ensures { result ≡ list_any (is_at ends.now node) link.now }
{
    for end in link {
        if node_of(ends, *end) == node {
            return true;
        }
    }
    false
}

/// Whether no two of these ends are of one node.
pub(crate) fn are_apart(ends: &[End], link: &[u16]) -> bool
    ensures { result ≡ are_apart ends.now link.now }
{
    for place in 0..link.len() {
        if is_at_one(ends, &link[place + 1..], node_of(ends, link[place])) {
            return false;
        }
    }
    true
}

// Whether an end is another one of these than this one.
fn is_other(link: &[u16], end: u16, other: u16) -> bool
    ensures { result ≡ among other (filter (λ x. not (x == end)) link.now) }
{
    for peer in link {
        if *peer != end && *peer == other {
            return true;
        }
    }
    false
}

/// Whether the two ends of a hop are of one link.
pub(crate) fn is_linked(links: &[Link], hop: LinkHop) -> bool
    ensures { result ≡ is_linked (map link_ends links.now) hop }
{
    is_other(link_of(links, hop.from), hop.from, hop.to)
}

/// Whether a hop is of the tree.
pub(crate) fn is_of_tree(hop: &TreeHop, group: Addr, source: Addr) -> bool
    ensures { result ≡ of_tree group source hop.now }
{
    hop.group.0 == group.0 && hop.source.0 == source.0
}

// Whether what is kept is of a hop of the tree.
fn is_in_tree(hop: &Known, group: Addr, source: Addr) -> bool
    ensures { result ≡ of_tree group source hop.now.hop }
{
    is_of_tree(&hop.hop, group, source)
}

/// Whether the tree has a hop.
pub(crate) fn has_tree(hops: &[Known], group: Addr, source: Addr) -> bool
    ensures { result ≡ list_any (of_tree group source) (plain hops.now) }
{
    for hop in hops {
        if is_in_tree(hop, group, source) {
            return true;
        }
    }
    false
}

// Whether a hop of the tree goes into the node.
fn is_entered(ends: &[End], hops: &[Known], group: Addr, source: Addr, node: u16) -> bool
    ensures { result ≡ list_any (goes_into ends.now node) (tree (plain hops.now) group source) }
{
    for hop in hops {
        if is_in_tree(hop, group, source) && node_of(ends, hop.hop.hop.to) == node {
            return true;
        }
    }
    false
}

/// Whether the tree has reached the node: it is the root, or a hop of the tree goes into it.
pub(crate) fn is_reached(ends: &[End], hops: &[Known], group: Addr, source: Addr, node: u16) -> bool
    ensures { result ≡ is_reached ends.now source (tree (plain hops.now) group source) node }
{
    match owner(ends, source) {
        Some(root) => root == node || is_entered(ends, hops, group, source, node),
        None => is_entered(ends, hops, group, source, node),
    }
}

// Whether a hop of a tree goes out of the end, or is not on the link of these ends.
pub(crate) fn is_sent_alone(link: &[u16], end: u16, hop: LinkHop) -> bool
    ensures { result ≡ leaves_link link.now end hop }
{
    !is_among(link, hop.from) || hop.from == end
}

// Whether each hop of the tree on the link of these ends goes out of the end.
fn all_alone(link: &[u16], hops: &[Known], group: Addr, source: Addr, end: u16) -> bool
    ensures { result ≡ list_all (leaves_link link.now end) (tree (plain hops.now) group source) }
{
    for hop in hops {
        if is_in_tree(hop, group, source) && !is_sent_alone(link, end, hop.hop.hop) {
            return false;
        }
    }
    true
}

/// Whether each hop of the tree on the link of an end goes out of that end.
pub(crate) fn is_alone(links: &[Link], hops: &[Known], group: Addr, source: Addr, end: u16) -> bool
    ensures { result ≡ list_all (sends_alone (map link_ends links.now) end) (tree (plain hops.now) group source) }
{
    all_alone(link_of(links, end), hops, group, source, end)
}

// Whether it is this hop of this group.
fn is_pair(group: Addr, hop: LinkHop, known: &Known) -> bool
    ensures { result ≡ is_pair group hop known.now }
{
    known.hop.group.0 == group.0 && hop.from == known.hop.hop.from && hop.to == known.hop.hop.to
}

/// The place at which this hop of this group stands first; the length of the list where it does not stand.
pub(crate) fn vertex_at(hops: &[Known], group: Addr, hop: LinkHop) -> u16
    requires { length hops.now ≤ 8192 }
    ensures { result ≡ vertex_at hops.now group hop }
{
    let mut place = 0;
    for known in hops {
        if is_pair(group, hop, known) {
            return place;
        }
        place += 1;
    }
    place
}

// Whether it is a hop of the same tree into the node that this one goes out of.
fn comes_to(ends: &[End], hop: &TreeHop, known: &Known) -> bool
    ensures { result ≡ comes_to ends.now hop.now known.now }
{
    is_in_tree(known, hop.group, hop.source)
        && node_of(ends, known.hop.hop.to) == node_of(ends, hop.hop.from)
}

/// The vertex of the hop before this one in its tree.
pub(crate) fn vertex_before(ends: &[End], hops: &[Known], hop: &TreeHop) -> Option<u16>
    ensures { result ≡ vertex_before ends.now hop.now hops.now }
{
    for known in hops {
        if comes_to(ends, hop, known) {
            return Some(known.vertex);
        }
    }
    None
}
