//! What the ends of a network hold is counted.
ghost use Rattle.std.specs.Prelude.{◌≡◌, ◌≤◌, ◌<◌, ◌+◌, ◌*◌, ◌^◌, ℕ, length, nat_lt, if◌then◌else◌};
ghost use Rattle.rsvp_base.specs.Table.{size};
ghost use Rattle.router_rules.specs.Flags.{entries_of};
ghost use Rattle.style_rules.specs.Lines.{held};
ghost use Rattle.network_model.specs.Worlds.{World as AWorld};
ghost use Rattle.network_replay.specs.Agreeing.{Agrees};
ghost use Rattle.grown_network.specs.Booked.{booked, end_book};

use grown_network::Booked;
use network_flight::Wires;
use network_replay::{Router, World};

// An interface has at most so many entries.
const ENTRIES: u32 = 3072;

/// What the ends of these wires hold.
pub(crate) fn count<R: Router + Drop>(world: &World<R>, wires: &Wires) -> Booked
    ensures { (q : ℕ) (w : AWorld) → Agrees R.seen q world.now w → result ≡ booked wires.now w }
{
    let mut booked = Booked {
        ends: 0,
        entries: 0,
        held: 0,
    };
    for end in 0..ends_of(wires) {
        let (entries, held) = count_at(world, wires, end);
        booked = with_end(booked, entries, held);
    }
    booked
}

// With what one end more holds.
fn with_end(booked: Booked, entries: u32, held: u64) -> Booked
    requires ends { booked.ends ≤ 65535 }
    requires entries { booked.entries ≤ 3072 * 65535 }
    requires held { booked.held ≤ 65535 * 2 ^ 64 }
    ensures { result ≡ record { ends = booked.ends + (if nat_lt 0 entries then 1 else 0); entries = booked.entries + entries; held = booked.held + held } }
{
    let one = if entries > 0 { 1 } else { 0 };
    Booked {
        ends: booked.ends + one,
        entries: booked.entries + u64::from(entries),
        held: booked.held + u128::from(held),
    }
}

// How many ends there are.
fn ends_of(wires: &Wires) -> u16
    ensures { result ≡ length wires.now.ends }
{
    wires.routing().ends().len() as u16
}

// How many entries an end holds, and what they charge together.
fn count_at<R: Router + Drop>(world: &World<R>, wires: &Wires, end: u16) -> (u32, u64)
    ensures entries { (q : ℕ) (w : AWorld) → Agrees R.seen q world.now w → result.0 ≡ size (end_book wires.now w end) }
    ensures held { (q : ℕ) (w : AWorld) → Agrees R.seen q world.now w → result.1 ≡ held (end_book wires.now w end) }
    ensures few { result.0 ≤ 3072 }
    ensures fits { result.1 < 2 ^ 64 }
{
    let Some((number, iface)) = wires.place_of(end) else {
        return (0, 0);
    };
    let Some(node) = world.node(number) else {
        return (0, 0);
    };
    (count_entries(node, iface), node.held(iface))
}

// How many entries an interface has.
fn count_entries<R: Router + Drop>(node: &R, iface: u8) -> u32
    ensures entries { (c : ℕ) → result ≡ length (entries_of (R.seen.place node.now) (R.seen.facts node.now c) iface) }
    ensures few { result ≤ 3072 }
{
    // The proof sees here that the entries are few.
    let _first = node.entry(iface, 0);
    for k in 0..ENTRIES {
        let Some(_entry) = node.entry(iface, k as usize) else {
            return k;
        };
    }
    ENTRIES
}
