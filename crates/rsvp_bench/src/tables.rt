//! The work on a full table of reservations that is timed: 32 sessions with 32 reservations each.

use crate::reservations::{EACH, SESSIONS, Sample, session, source};
use resv_state::ResvTable;
use rsvp_base::{Flow, Peak, Rate};
use std::alloc::Global;
use style_rules::{Fixed, Parts, Shared, UpLine, Upstream, Wall};

/// Which calls are made.
#[derive(Clone, Copy)]
pub enum Calls {
    /// Each reservation is put into an empty table.
    Fill,
    /// Each is put in place of itself, as a refresh does.
    Refresh,
    /// Each is found.
    Find,
    /// Each is taken out, and put in again.
    Remove,
    /// The reservations of each session are merged on each interface.
    Parts,
    /// What they ask for toward a previous hop from which all senders come, one in four of them with a blockade.
    Toward,
}

/// Which calls are made, and of which table.
#[derive(Clone, Copy)]
pub struct Desk {
    /// The reservations are shared ones for 16 senders, each of a next hop of its own; or fixed ones for a sender each, 16
    /// of a next hop.
    pub is_shared: bool,
    pub calls: Calls,
}

/// How many calls were made, and a sum over what came of them.
#[derive(Clone, Copy, Default)]
pub struct Served {
    pub calls: u64,
    pub sum: u64,
}

// How long a reservation lives, in milliseconds.
const LIFETIME: u32 = 157_500;

/// Makes the calls so many times. `None`: memory ran out.
pub fn serve_times(alloc: Global, desk: Desk, times: u32) -> Option<Served> {
    if desk.is_shared {
        serve::<Shared>(alloc, desk.calls, times)
    } else {
        serve::<Fixed>(alloc, desk.calls, times)
    }
}

fn serve<S: Sample>(alloc: Global, calls: Calls, times: u32) -> Option<Served> {
    let mut table = ResvTable::<S>::open(alloc).ok()?;
    fill(&mut table)?;
    let up = upstream()?;
    let mut all = Served::default();
    for _ in 0..times {
        let served = match calls {
            Calls::Fill => {
                table.clear();
                fill(&mut table)?
            }
            Calls::Refresh => fill(&mut table)?,
            Calls::Find => find_all(&table)?,
            Calls::Remove => remove_all(&mut table)?,
            Calls::Parts => merge_all(&table),
            Calls::Toward => send_all(&table, &up),
        };
        all = both(all, served);
    }
    Some(all)
}

/// Both counts and sums together.
pub fn both(a: Served, b: Served) -> Served {
    Served {
        calls: a.calls.wrapping_add(b.calls),
        sum: a.sum.wrapping_add(b.sum),
    }
}

/// One call.
pub fn once(sum: u64) -> Served {
    Served { calls: 1, sum }
}

// Puts each reservation.
fn fill<S: Sample>(table: &mut ResvTable<S>) -> Option<Served> {
    let mut served = Served::default();
    for number in 0..SESSIONS {
        for k in 0..EACH {
            let fact = S::reservation(number, k)?;
            if table.pull_dead().is_some() {
                return None;
            }
            table.put(fact, LIFETIME).ok()?;
            served = both(served, once(1));
        }
    }
    Some(served)
}

// Finds each reservation.
fn find_all<S: Sample>(table: &ResvTable<S>) -> Option<Served> {
    let mut served = Served::default();
    for number in 0..SESSIONS {
        for k in 0..EACH {
            let fact = S::reservation(number, k)?;
            let unit = fact.part.unit(S::kind());
            let found = table.find(fact.session, fact.iface, fact.next, unit)?;
            served = both(served, once(found.part.flow.r.value()));
        }
    }
    Some(served)
}

// Takes each reservation out, and puts it in again.
fn remove_all<S: Sample>(table: &mut ResvTable<S>) -> Option<Served> {
    let mut served = Served::default();
    for number in 0..SESSIONS {
        for k in 0..EACH {
            let fact = S::reservation(number, k)?;
            if !table.remove(fact.session, fact.iface, fact.next, &fact.part.senders) {
                return None;
            }
            if table.pull_dead().is_some() {
                return None;
            }
            table.put(fact, LIFETIME).ok()?;
            served = both(served, once(1));
        }
    }
    Some(served)
}

// Merges the reservations of each session on each of two interfaces.
fn merge_all<S: Sample>(table: &ResvTable<S>) -> Served {
    let mut served = Served::default();
    for number in 0..SESSIONS {
        for iface in 0u8..2 {
            let parts = table.parts(session(number), iface);
            served = both(served, once(weight(&parts)));
        }
    }
    served
}

// What the reservations of each session ask for toward a hop.
fn send_all<S: Sample>(table: &ResvTable<S>, up: &Upstream) -> Served {
    let own = Parts::new();
    let mut served = Served::default();
    for number in 0..SESSIONS {
        let parts = table.toward(session(number), up, &own);
        served = both(served, once(weight(&parts)));
    }
    served
}

// The 16 senders, whose trees go out of both interfaces. One in four is blockaded for more than 1,010 bytes per second.
fn upstream() -> Option<Upstream> {
    let refused = Flow::new(Rate::of(1010)?, Rate::of(2000)?, Peak::Infinite, 64, 1500)?;
    let mut up = Upstream::new();
    for k in 0u16..16 {
        let wall = if k % 4 == 0 {
            Some(Wall {
                flow: refused,
                sub: 2,
            })
        } else {
            None
        };
        let line = UpLine {
            name: source(k),
            outward: 3,
            wall,
        };
        up.add(line).ok()?;
    }
    Some(up)
}

// A sum over parts: the names and the rate of each.
fn weight(parts: &Parts) -> u64 {
    let mut sum = 0u64;
    for (_, part) in parts.as_slice() {
        sum = sum
            .wrapping_add(part.senders.len() as u64)
            .wrapping_add(part.flow.r.value());
    }
    sum
}
