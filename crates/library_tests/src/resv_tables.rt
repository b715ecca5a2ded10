//! Each style's table through its calls, a full table, and the merge of blockaded requests.
ghost use Rattle.std.specs.Prelude.{◌≡◌, [], ◌∷◌};
ghost use Rattle.rsvp_base.specs.Sets.{set_of};
ghost use Rattle.rsvp_base.specs.declared.style.StyleKind.{StyleKind};
ghost use Rattle.style_rules.specs.Parts.{IsOfStyle};

use resv_state::{Finger, ResvFact, ResvTable};
use rsvp_base::{Addr, Flow, Part, Peak, Rate, Sender, Senders, Session, Unit};
use std::test::Fail;
use style_rules::{Fixed, Parts, Shared, Style, UpLine, Upstream, Wall, Wild};

fn session(group: u32) -> Session {
    Session {
        group: Addr(group),
        proto: 17,
        port: 5004,
    }
}

fn flow(r: u64, b: u64, low: u32, most: u32) -> Option<Flow> {
    Flow::new(Rate::of(r)?, Rate::of(b)?, Peak::Infinite, low, most)
}

// A sender with port 0, which each style lists.
fn sender(addr: u32) -> Sender
    ensures { result.port ≡ 0 }
{
    Sender {
        addr: Addr(addr),
        port: 0,
    }
}

// The list of one sender.
fn only(name: Sender) -> Senders
    ensures { result ≡ set_of (name ∷ []) }
{
    let mut names = Senders::new();
    let Ok(()) = names.insert(name) else {
        unreachable!();
    };
    names
}

// A reservation for one such sender, which is of each style.
fn make_fact(group: u32, iface: u8, next: u32, name: u32, flow: Flow) -> ResvFact
    ensures { (st : StyleKind) → IsOfStyle st result.part }
{
    ResvFact {
        session: session(group),
        iface,
        next: Addr(next),
        part: Part {
            senders: only(sender(name)),
            flow,
        },
        confirm: None,
    }
}

// Whether such a reservation was kept, where no dead one waits.
fn is_put<S: Style>(
    table: &mut ResvTable<S>,
    group: u32,
    iface: u8,
    next: u32,
    name: u32,
    flow: Flow,
) -> bool {
    let None = table.pull_dead() else {
        return false;
    };
    let fact = make_fact(group, iface, next, name, flow);
    let fits = table.fits(&fact);
    table.put(fact, 1000).is_ok() == fits && fits
}

// One line for the sender 3: its tree goes out of the interfaces 0 and 1.
fn up_by(wall: Option<Wall>) -> Option<Upstream> {
    let mut up = Upstream::new();
    let line = UpLine {
        name: sender(3),
        outward: 3,
        wall,
    };
    up.add(line).ok()?;
    Some(up)
}

// Whether a session's three reservations are gone through, and one of a smaller flow would leave an entry as it is.
fn is_walked<S: Style>(table: &ResvTable<S>, rate: Flow) -> bool {
    let mut finger = Finger::default();
    let Some(first) = table.first(session(1)) else {
        return false;
    };
    let Some(second) = table.after(first, &mut finger) else {
        return false;
    };
    let Some(third) = table.after(second, &mut finger) else {
        return false;
    };
    let fact = make_fact(1, 1, 8, 3, rate);
    table.entry_with(&fact) == rate
        && (first.iface, second.iface, third.iface) == (0, 1, 2)
        && table.after(third, &mut finger).is_none()
}

// Whether a session's reservation of the next hop 7 on the interface 0 is renewed, where no dead one waits: once with its flow,
// and neither with another flow nor with a wish for a confirmation.
fn is_renewed<S: Style>(table: &mut ResvTable<S>, rate: Flow) -> bool {
    let None = table.pull_dead() else {
        return false;
    };
    let same = make_fact(1, 0, 7, 3, rate).part;
    let other = make_fact(1, 0, 7, 3, Flow::default()).part;
    let wish = Some(Addr(8));
    table.renew(session(1), 0, Addr(7), &same, None, 1000)
        && !table.renew(session(1), 0, Addr(7), &other, None, 1000)
        && !table.renew(session(1), 0, Addr(7), &same, wish, 1000)
}

// Whether three reservations of a session are kept.
fn keeps_three<S: Style>(table: &mut ResvTable<S>, rate: Flow) -> bool {
    for iface in 0u8..3 {
        if !is_put(table, 1, iface, 7, 3, rate) {
            return false;
        }
    }
    true
}

// Whether they merge to one part, each by itself and toward their sender.
fn merges<S: Style>(table: &ResvTable<S>) -> bool {
    let Some(up) = up_by(None) else {
        return false;
    };
    table.parts(session(1), 2).len() == 1
        && table.parts(session(1), 3).len() == 0
        && table.toward(session(1), &up, &Parts::new()).len() == 1
}

// Whether the second is removed, once.
fn removes<S: Style>(table: &mut ResvTable<S>) -> bool {
    let named = only(sender(3));
    table.remove(session(1), 1, Addr(7), &named)
        && !table.remove(session(1), 1, Addr(7), &named)
        && table.at(session(1), 1).is_some()
        && table.at(session(1), 2).is_none()
}

// Whether the first is gone with its sender.
fn forgets<S: Style>(table: &mut ResvTable<S>) -> bool {
    table.forget_sender(session(1), sender(3));
    let unit = S::unit_of(sender(3));
    table.find(session(1), 0, Addr(7), unit).is_none()
}

// Whether a reservation of another session dies with its time, and none is left of a table that is cleared.
fn dies<S: Style>(table: &mut ResvTable<S>, rate: Flow) -> bool {
    if !is_put(table, 2, 0, 7, 3, rate) {
        return false;
    }
    let None = table.pull_dead() else {
        return false;
    };
    table.advance(1000);
    let died = table.pull_dead().is_some();
    table.clear();
    died && table.at(session(2), 0).is_none()
}

// The calls of a table, each once. True where all answer as they must.
fn answers<S: Style>(table: &mut ResvTable<S>, rate: Flow) -> bool {
    keeps_three(table, rate)
        && is_renewed(table, rate)
        && is_walked(table, rate)
        && merges(table)
        && removes(table)
        && forgets(table)
        && dies(table, rate)
}

#[test]
fn each_call_is_made_of_wildcards(rt: HostRuntime) -> Result<(), Fail> {
    let rate = flow(9, 20, 1, 1500).ok_or("flow")?;
    let mut table = ResvTable::<Wild>::open(rt.alloc()).or(Err("memory"))?;
    assert!(rt; answers(&mut table, rate));
    Ok(())
}

#[test]
fn each_call_is_made_of_fixed_filters(rt: HostRuntime) -> Result<(), Fail> {
    let rate = flow(9, 20, 1, 1500).ok_or("flow")?;
    let mut table = ResvTable::<Fixed>::open(rt.alloc()).or(Err("memory"))?;
    assert!(rt; answers(&mut table, rate));
    Ok(())
}

#[test]
fn each_call_is_made_of_shared_filters(rt: HostRuntime) -> Result<(), Fail> {
    let rate = flow(9, 20, 1, 1500).ok_or("flow")?;
    let mut table = ResvTable::<Shared>::open(rt.alloc()).or(Err("memory"))?;
    assert!(rt; answers(&mut table, rate));
    Ok(())
}

// Reservations for 16 senders at each of 2 next hops in each of 32 sessions. True where all were kept.
fn fill(table: &mut ResvTable<Fixed>, rate: Flow) -> bool {
    for k in 0u32..1024 {
        if !is_put(table, k / 32, 0, k / 16 % 2, k % 16, rate) {
            return false;
        }
    }
    true
}

#[test]
fn a_full_table_answers_full(rt: HostRuntime) -> Result<(), Fail> {
    let rate = flow(9, 20, 1, 1500).ok_or("flow")?;
    let mut table = ResvTable::<Fixed>::open(rt.alloc()).ok().ok_or("memory")?;
    assert!(rt; fill(&mut table, rate));
    assert!(rt; !is_put(&mut table, 0, 0, 2, 0, rate));
    assert!(rt; table.at(session(0), 31).is_some() && table.at(session(0), 32).is_none());
    let other = table.find(session(0), 0, Addr(2), Unit::Of(sender(0)));
    assert!(rt; other.is_none());
    assert!(rt; is_put(&mut table, 0, 0, 1, 0, rate));
    Ok(())
}

// The flow of what goes toward the sender 3 behind this wall, if it is one part.
fn flow_behind(table: &ResvTable<Wild>, wall: Option<Wall>) -> Option<Flow> {
    let parts = table.toward(session(1), &up_by(wall)?, &Parts::new());
    if parts.len() == 1 {
        Some(parts.get(Unit::One)?.flow)
    } else {
        None
    }
}

#[test]
fn blockaded_requests_go_as_their_meet(rt: HostRuntime) -> Result<(), Fail> {
    let deep = flow(9, 20, 1, 1500).ok_or("deep")?;
    let fast = flow(10, 8, 4, 1000).ok_or("fast")?;
    let met = flow(9, 8, 4, 1000).ok_or("met")?;
    let joined = flow(10, 20, 1, 1500).ok_or("joined")?;
    let mut table = ResvTable::<Wild>::open(rt.alloc()).or(Err("memory"))?;
    assert!(rt; is_put(&mut table, 1, 0, 7, 3, deep) && is_put(&mut table, 1, 1, 7, 3, fast));
    for (wall, expected) in [
        (Some(Wall { flow: deep, sub: 2 }), met),
        (Some(Wall { flow: fast, sub: 2 }), deep),
        (Some(Wall { flow: deep, sub: 3 }), fast),
        (None, joined),
    ] {
        assert!(rt; flow_behind(&table, wall) == Some(expected));
    }
    Ok(())
}
