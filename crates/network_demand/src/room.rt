//! Room at the nodes of a network for what is wanted over hops.
ghost use Rattle.std.specs.Prelude.{◌≡◌, ◌+◌, ◌<◌, ◌==◌, ℕ, false, cond, length, replicate, IfOk, IsTrue};
ghost use Rattle.rsvp_base.specs.Members.{In};
ghost use Rattle.tree_model.specs.Networks.{node_of};
ghost use Rattle.network_demand.specs.declared.hop_want.HopWant.{HopWant};
ghost use Rattle.network_demand.specs.Fits.{amount, taken_at, room_at};

use crate::hop_want::HopWant;
use rsvp_base::NoMemory;
use std::alloc::Global;
use tree_routing::Routing;

/// The same room at each of so many nodes.
pub(crate) fn rooms(alloc: Global, nodes: u16, room: usize) -> Result<Vec<usize>, NoMemory>
    ensures { IfOk result (λ all. all.items ≡ replicate nodes room) }
{
    Ok(vec![in alloc; room; nodes as usize]?)
}

// Takes some of the room at a node. False exactly where there is less.
fn take(rooms: &mut Vec<usize>, node: u16, amount: usize) -> bool
    requires { node < length rooms.old.items }
    ensures size { length rooms.new.items ≡ length rooms.old.items }
    ensures room { IsTrue result → (full n : ℕ) → room_at full rooms.new.items n + cond (node == n) amount 0 ≡ room_at full rooms.old.items n }
    ensures less { result ≡ false → (full : ℕ) → room_at full rooms.old.items node < amount }
{
    let there = &mut rooms[node as usize];
    if *there < amount {
        return false;
    }
    *there -= amount;
    true
}

// How much a want takes: for each of its parts, or once.
fn amount(want: &HopWant, once: bool) -> usize
    ensures { result ≡ amount once want.now }
{
    if once && !want.parts.is_empty() {
        return 1;
    }
    want.parts.len()
}

/// Takes room for wants, for each of their parts or for each want once, at the nodes that their hops go out of. False exactly
/// where there is less at one of them.
pub(crate) fn take_all(
    routing: &Routing,
    rooms: &mut Vec<usize>,
    wants: &[HopWant],
    once: bool,
) -> bool
    requires { (w : HopWant) → In w wants.now → node_of routing.now.ends w.hop.from < length rooms.old.items }
    ensures size { length rooms.new.items ≡ length rooms.old.items }
    ensures room { IsTrue result → (full n : ℕ) → room_at full rooms.new.items n + taken_at once routing.now n wants.now ≡ room_at full rooms.old.items n }
    ensures less { result ≡ false → (n : ℕ) × ((full : ℕ) → room_at full rooms.old.items n < taken_at once routing.now n wants.now) }
{
    for want in wants {
        if !take(rooms, routing.node_of(want.hop.from), amount(want, once)) {
            return false;
        }
    }
    true
}
