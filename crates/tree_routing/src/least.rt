//! The loop check: along chains from the new hop.
ghost use Rattle.std.specs.Prelude.{◌≡◌, ◌↔◌, ◌<◌, ◌≤◌, ◌⊎◌, ℕ, length, IsTrue, IfOk, IfSome};
ghost use Rattle.tree_routing.specs.Marks.{AreBelow};
ghost use Rattle.tree_routing.specs.Answers.{IsUpTo};
ghost use Rattle.tree_routing.specs.Reroutes.{AreBefore};
ghost use Rattle.tree_routing.specs.Checks.{IsBetween, IsBetter, IsLeastBetween, LoopAnswer};

use crate::hop_err::HopErr;
use crate::known::Known;
use crate::marks::leads;
use rsvp_base::NoMemory;
use std::alloc::Global;
use tree_model::LinkHop;

/// Whether the first hop comes before the second or is it: by the end that they go out of, then by the other.
pub(crate) fn is_up_to(a: LinkHop, b: LinkHop) -> bool
    ensures { IsTrue result ↔ IsUpTo a b }
{
    a.from < b.from || (a.from == b.from && a.to <= b.to)
}

// Whether edges lead from the one vertex to the other by way of this one.
fn is_between(
    alloc: Global,
    hops: &[Known],
    from: u16,
    to: u16,
    vertex: u16,
) -> Result<bool, NoMemory>
    requires below { AreBelow (length hops.now) hops.now }
    requires from { from ≤ length hops.now }
    requires vertex { vertex ≤ length hops.now }
    requires few { length hops.now ≤ 8192 }
    ensures { IfOk result (λ is. IsTrue is ↔ IsBetween hops.now from to vertex) }
{
    if !leads(alloc, hops, from, vertex)? {
        return Ok(false);
    }
    leads(alloc, hops, vertex, to)
}

// Whether a hop of the group by way of which edges lead from the new hop to the hop before it is less than the least so far.
fn is_better(
    alloc: Global,
    hops: &[Known],
    new: &Known,
    before: u16,
    hop: &Known,
    least: LinkHop,
) -> Result<bool, NoMemory>
    requires below { AreBelow (length hops.now) hops.now }
    requires from { new.now.vertex ≤ length hops.now }
    requires vertex { hop.now.vertex ≤ length hops.now }
    requires few { length hops.now ≤ 8192 }
    ensures { IfOk result (λ is. IsTrue is ↔ IsBetter hops.now new.now before hop.now least) }
{
    if hop.hop.group != new.hop.group || is_up_to(least, hop.hop.hop) {
        return Ok(false);
    }
    is_between(alloc, hops, new.vertex, before, hop.vertex)
}

// The least hop on a chain from the new hop to the hop before it.
fn least_between(
    alloc: Global,
    hops: &[Known],
    new: &Known,
    before: u16,
) -> Result<LinkHop, NoMemory>
    requires below { AreBelow (length hops.now) hops.now }
    requires from { new.now.vertex ≤ length hops.now }
    requires few { length hops.now ≤ 8192 }
    ensures { IfOk result (IsLeastBetween hops.now new.now before) }
{
    let mut least = new.hop.hop;
    for hop in hops {
        if is_better(alloc, hops, new, before, hop, least)? {
            least = hop.hop.hop;
        }
    }
    Ok(least)
}

/// Whether the new hop closes a chain of its group, and which hop on a closed chain is the least.
pub(crate) fn check_loop(alloc: Global, hops: &[Known], new: &Known) -> Result<(), HopErr>
    requires below { AreBelow (length hops.now) hops.now }
    requires befores { AreBefore (length hops.now) hops.now }
    requires before { IfSome new.now.before (λ b. b < length hops.now) }
    requires from { new.now.vertex ≤ length hops.now }
    requires few { length hops.now ≤ 8192 }
    ensures { LoopAnswer hops.now new.now result }
{
    let Some(before) = new.before else {
        return Ok(());
    };
    // No hop comes behind one that stands in no tree of its group yet.
    if new.vertex as usize == hops.len() {
        return Ok(());
    }
    match leads(alloc, hops, new.vertex, before) {
        Ok(true) => match least_between(alloc, hops, new, before) {
            Ok(hop) => Err(HopErr::Loop {
                group: new.hop.group,
                from: hop.from,
                to: hop.to,
            }),
            Err(_) => Err(HopErr::NoMemory),
        },
        Ok(false) => Ok(()),
        Err(_) => Err(HopErr::NoMemory),
    }
}
