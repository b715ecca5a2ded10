//! Why a tree cannot grow by a hop.
ghost use Rattle.std.specs.Prelude.{◌≡◌, ℕ, List, MatchOption, map};
ghost use Rattle.std.specs.List.{list_all, list_any};
ghost use Rattle.tree_model.specs.Trees.{Grows, IsGrown, goes_into, is_reached, sends_alone, tree};
ghost use Rattle.tree_routing.specs.declared.known.Known.{Known as AKnown};
ghost use Rattle.tree_routing.specs.Found.{leaves_link};
ghost use Rattle.tree_routing.specs.HopFaults.{IsHopFault, IsTreeFault};
ghost use Rattle.tree_routing.specs.Known.{link_ends, net_of, plain};

use crate::ask::{is_alone, is_linked, is_reached, is_sent_alone, link_of, node_of, owner};
use crate::known::Known;
use crate::link::Link;
use crate::topology::Topology;
use rsvp_base::Addr;
use tree_model::{End, LinkHop};

/// Why a tree cannot grow by a hop, by the first rule that the hop breaks.
#[derive(Clone, Copy, Debug, PartialEq, Eq)]
pub enum HopFault {
    /// Its ends do not share a link.
    NoLink,
    /// The tree has reached neither of its nodes: the hop into the one that it goes out of is missing, or comes later.
    Early,
    /// The tree has reached the node that it goes into, and not the one that it goes out of.
    Reversed,
    /// The tree has reached both of its nodes.
    Twice,
    /// A hop of the tree goes out of another end of the link.
    OtherEnd,
}

impl Topology {
    /// Why the tree of a group and source cannot grow by a hop. `None` exactly where it can.
    pub fn growing_fault(&self, group: Addr, source: Addr, hop: LinkHop) -> Option<HopFault>
        ensures { MatchOption result (Grows self.now source (tree self.now.hops group source) hop) (IsHopFault self.now source (tree self.now.hops group source) hop) }
    {
        growing_fault(
            self.ends.as_slice(),
            self.links.as_slice(),
            self.hops.as_slice(),
            group,
            source,
            hop,
        )
    }

    // Why a tree from the node that has the end of the source, which has these hops, cannot grow by one more. `None` exactly where it
    // can.
    fn hop_fault(&self, source: Addr, hops: &[LinkHop], hop: LinkHop) -> Option<HopFault>
        ensures { MatchOption result (Grows self.now source hops.now hop) (IsHopFault self.now source hops.now hop) }
    {
        let ends = self.ends.as_slice();
        hop_fault(ends, self.links.as_slice(), source, hops, hop)
    }

    /// The place of the first of these hops by which a tree from the node that has the end of the source cannot grow, and why. `None`
    /// exactly where they grow one, one by one.
    pub fn tree_fault(&self, source: Addr, hops: &[LinkHop]) -> Option<(usize, HopFault)>
        ensures { MatchOption result (IsGrown self.now source hops.now) (λ f. IsTreeFault self.now source hops.now f.0 f.1) }
    {
        for place in 0..hops.len() {
            if let Some(why) = self.hop_fault(source, &hops[..place], hops[place]) {
                return Some((place, why));
            }
        }
        None
    }
}

// Why the tree of a group and source, whose hops are among these, cannot grow by one more, if it cannot.
fn growing_fault(
    ends: &[End],
    links: &[Link],
    hops: &[Known],
    group: Addr,
    source: Addr,
    hop: LinkHop,
) -> Option<HopFault>
    ensures { (nodes : ℕ) (ks : List AKnown)
        → MatchOption result (Grows (net_of nodes ends.now links.now ks) source (tree (plain hops.now) group source) hop)
        (IsHopFault (net_of nodes ends.now links.now ks) source (tree (plain hops.now) group source) hop) }
{
    if !is_linked(links, hop) {
        return Some(HopFault::NoLink);
    }
    let from = is_reached(ends, hops, group, source, node_of(ends, hop.from));
    let to = is_reached(ends, hops, group, source, node_of(ends, hop.to));
    match (from, to) {
        (false, false) => Some(HopFault::Early),
        (false, true) => Some(HopFault::Reversed),
        (true, true) => Some(HopFault::Twice),
        (true, false) => {
            if is_alone(links, hops, group, source, hop.from) {
                return None;
            }
            Some(HopFault::OtherEnd)
        }
    }
}

// Why a tree that has these hops cannot grow by one more, if it cannot.
fn hop_fault(
    ends: &[End],
    links: &[Link],
    source: Addr,
    hops: &[LinkHop],
    hop: LinkHop,
) -> Option<HopFault>
    ensures { (nodes : ℕ) (ks : List AKnown)
        → MatchOption result (Grows (net_of nodes ends.now links.now ks) source hops.now hop) (IsHopFault (net_of nodes ends.now links.now ks) source hops.now hop) }
{
    if !is_linked(links, hop) {
        return Some(HopFault::NoLink);
    }
    let from = reaches(ends, source, hops, node_of(ends, hop.from));
    let to = reaches(ends, source, hops, node_of(ends, hop.to));
    match (from, to) {
        (false, false) => Some(HopFault::Early),
        (false, true) => Some(HopFault::Reversed),
        (true, true) => Some(HopFault::Twice),
        (true, false) => {
            if send_alone(link_of(links, hop.from), hops, hop.from) {
                return None;
            }
            Some(HopFault::OtherEnd)
        }
    }
}

// Whether the hops lead to the node, or it has the end of the source.
fn reaches(ends: &[End], source: Addr, hops: &[LinkHop], node: u16) -> bool
    ensures { result ≡ is_reached ends.now source hops.now node }
{
    match owner(ends, source) {
        Some(root) => root == node || enter(ends, hops, node),
        None => enter(ends, hops, node),
    }
}

// Whether one of the hops goes into the node.
fn enter(ends: &[End], hops: &[LinkHop], node: u16) -> bool
    ensures { result ≡ list_any (goes_into ends.now node) hops.now }
{
    for hop in hops {
        if node_of(ends, hop.to) == node {
            return true;
        }
    }
    false
}

// Whether each of the hops on the link of these ends goes out of the end.
fn send_alone(link: &[u16], hops: &[LinkHop], end: u16) -> bool
    ensures { result ≡ list_all (leaves_link link.now end) hops.now }
{
    for hop in hops {
        if !is_sent_alone(link, end, *hop) {
            return false;
        }
    }
    true
}
