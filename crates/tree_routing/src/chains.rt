//! Closed chains among all hops of a group.
ghost use Rattle.std.specs.Prelude.{◌≡◌, ◌↔◌, ◌≤◌, length, IsTrue, IfOk};
ghost use Rattle.tree_routing.specs.Levels.{levels};
ghost use Rattle.tree_routing.specs.Marks.{AreBelow};
ghost use Rattle.tree_routing.specs.Checks.{Closes};
ghost use Rattle.tree_routing.specs.Reroutes.{AreBefore, IsLess, IsLesserClosed, IsLeastClosed};

use crate::known::Known;
use crate::least::is_up_to;
use crate::levels::highest;
use crate::marks::leads;
use rsvp_base::{Addr, NoMemory};
use std::alloc::Global;
use tree_model::LinkHop;

// Whether edges lead from the hop to the one before it.
fn closes(alloc: Global, hops: &[Known], hop: &Known) -> Result<bool, NoMemory>
    requires below { AreBelow (length hops.now) hops.now }
    requires from { hop.now.vertex ≤ length hops.now }
    requires few { length hops.now ≤ 8192 }
    ensures { IfOk result (λ is. IsTrue is ↔ Closes hops.now hop.now) }
{
    match hop.before {
        Some(before) => leads(alloc, hops, hop.vertex, before),
        None => Ok(false),
    }
}

// Whether the hop comes before the least so far, if there is one.
fn is_less(hop: LinkHop, least: Option<LinkHop>) -> bool
    ensures { IsTrue result ↔ IsLess hop least }
{
    match least {
        Some(least) => !is_up_to(least, hop),
        None => true,
    }
}

// Whether it is a hop of the group on a closed chain that comes before the least so far.
fn is_lesser(
    alloc: Global,
    hops: &[Known],
    group: Addr,
    hop: &Known,
    least: Option<LinkHop>,
) -> Result<bool, NoMemory>
    requires below { AreBelow (length hops.now) hops.now }
    requires from { hop.now.vertex ≤ length hops.now }
    requires few { length hops.now ≤ 8192 }
    ensures { IfOk result (λ is. IsTrue is ↔ IsLesserClosed hops.now group hop.now least) }
{
    if hop.hop.group != group || !is_less(hop.hop.hop, least) {
        return Ok(false);
    }
    closes(alloc, hops, hop)
}

// The least hop of the group on a closed chain.
fn least_closed(alloc: Global, hops: &[Known], group: Addr) -> Result<Option<LinkHop>, NoMemory>
    requires below { AreBelow (length hops.now) hops.now }
    requires few { length hops.now ≤ 8192 }
    ensures { IfOk result (IsLeastClosed hops.now hops.now group) }
{
    let mut least = None;
    for hop in hops {
        if is_lesser(alloc, hops, group, hop, least)? {
            least = Some(hop.hop.hop);
        }
    }
    Ok(least)
}

/// The least hop of the group that stands on a closed chain, where these are the levels of the hops. Levels rise along a
/// closed chain without end, so that none is closed where no level is above the number of the hops.
/// `NoMemory`: there was no room for marks.
pub(crate) fn closed_hop(
    alloc: Global,
    hops: &[Known],
    lifted: &[u16],
    group: Addr,
) -> Result<Option<LinkHop>, NoMemory>
    requires below { AreBelow (length hops.now) hops.now }
    requires before { AreBefore (length hops.now) hops.now }
    requires few { length hops.now ≤ 8192 }
    requires levels { lifted.now ≡ levels hops.now }
    ensures { IfOk result (IsLeastClosed hops.now hops.now group) }
{
    if highest(lifted, hops) as usize <= hops.len() {
        return Ok(None);
    }
    least_closed(alloc, hops, group)
}
