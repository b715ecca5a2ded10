//! Local senders of 32 sessions and a 33rd, and a 17th of one; wants that are asked, unmarked and ended; countdowns that come
//! due.
use local_state::{Countdowns, LocalSenders, LocalWant, LocalWants};
use rsvp_base::{Addr, Flow, Full, Part, Peak, Rate, Sender, Senders, Session, StyleKind, Unit};
use std::alloc::Global;
use std::test::Fail;

fn session(group: u32) -> Session {
    Session {
        group: Addr(group),
        proto: 17,
        port: 5004,
    }
}

fn sender(addr: u32) -> Sender {
    Sender {
        addr: Addr(addr),
        port: 5004,
    }
}

fn flow(r: u64) -> Option<Flow> {
    Flow::new(Rate::of(r)?, Rate::of(8)?, Peak::Infinite, 1, 1500)
}

// How many of the sessions 0 to 32, and then of the senders 0 to 16 of the session 5, were taken.
fn fill(table: &mut LocalSenders, low: Flow) -> (u32, u32) {
    let mut sessions = 0u32;
    for group in 0u32..33 {
        if table.put(session(group), sender(0), low) == Ok(()) {
            sessions = sessions.saturating_add(1);
        }
    }
    let mut senders = 0u32;
    for addr in 0u32..17 {
        if table.put(session(5), sender(addr), low) == Ok(()) {
            senders = senders.saturating_add(1);
        }
    }
    (sessions, senders)
}

#[test]
fn there_are_32_sessions_of_16_local_senders(rt: HostRuntime) -> Result<(), Fail> {
    let mut table = LocalSenders::open(rt.alloc()).or(Err("memory"))?;
    let low = flow(10).ok_or("low")?;
    assert!(rt; fill(&mut table, low) == (32, 16));
    assert!(rt; table.put(session(32), sender(0), low) == Err(Full));
    assert!(rt; table.put(session(5), sender(16), low) == Err(Full));
    assert!(rt; table.of(session(5)).len() == 16 && table.of(session(6)).len() == 1);
    assert!(rt; table.as_slice().len() == 47);
    assert!(rt;
        table.has_address(session(5), Addr(15)) && !table.has_address(session(6), Addr(15))
    );
    Ok(())
}

#[test]
fn a_full_table_of_senders_takes_a_sender_of_its_own_anew(rt: HostRuntime) -> Result<(), Fail> {
    let mut table = LocalSenders::open(rt.alloc()).or(Err("memory"))?;
    let low = flow(10).ok_or("low")?;
    let high = flow(20).ok_or("high")?;
    assert!(rt; fill(&mut table, low) == (32, 16));
    assert!(rt; table.put(session(5), sender(3), high) == Ok(()));
    let found = table.find(session(5), sender(3)).ok_or("found")?;
    assert!(rt; found.tspec == high && !found.advertised);

    // One that is advertised stays so where it announces something else, until it goes.
    assert!(rt; table.advertise(session(5), sender(3)) && !table.advertise(session(5), sender(16)));
    assert!(rt; table.put(session(5), sender(3), low) == Ok(()));
    let kept = table.find(session(5), sender(3)).ok_or("kept")?;
    assert!(rt; kept.tspec == low && kept.advertised);
    assert!(rt; table.remove(session(5), sender(3)));
    assert!(rt; table.put(session(5), sender(3), low) == Ok(()));
    let anew = table.find(session(5), sender(3)).ok_or("anew")?;
    assert!(rt; !anew.advertised);

    // Where the last sender of a session goes, there is room for another session.
    assert!(rt; table.remove(session(7), sender(0)) && !table.remove(session(7), sender(0)));
    assert!(rt; table.put(session(40), sender(0), low) == Ok(()));
    assert!(rt; table.put(session(7), sender(0), low) == Err(Full));
    Ok(())
}

// A wildcard want of the session 1, and a shared one of the session 2 that names nobody.
fn wanted(alloc: Global) -> Option<LocalWants> {
    let mut table = LocalWants::open(alloc).ok()?;
    for (group, style) in [(1u32, StyleKind::Wild), (2, StyleKind::Shared)] {
        let want = LocalWant {
            session: session(group),
            unit: Unit::One,
            style,
            part: Part {
                senders: Senders::new(),
                flow: flow(10)?,
            },
            confirm: true,
        };
        table.put(want).ok()?;
    }
    Some(table)
}

// How many wants of a session ask for a confirmation.
fn marked(table: &LocalWants, session: Session) -> usize {
    let mut count = 0usize;
    for want in table.of(session) {
        if want.confirm {
            count = count.saturating_add(1);
        }
    }
    count
}

// How many of the senders 1 and 2 a node asks for itself in a session and style.
fn own_senders(table: &LocalWants, session: Session, style: StyleKind) -> Option<usize> {
    let all = Senders::of(&[sender(1), sender(2)]).ok()?;
    let own = table.own(session, style, &all);
    if own.is_empty() {
        return Some(0);
    }
    Some(own.get(Unit::One)?.senders.len())
}

#[test]
fn wants_are_told_by_session_and_style(rt: HostRuntime) -> Result<(), Fail> {
    let table = wanted(rt.alloc()).ok_or("wants")?;
    assert!(rt; table.has_other(session(1), StyleKind::Shared));
    assert!(rt; !table.has_other(session(2), StyleKind::Shared));
    assert!(rt; own_senders(&table, session(1), StyleKind::Wild) == Some(2));
    assert!(rt; own_senders(&table, session(2), StyleKind::Wild) == Some(0));
    Ok(())
}

#[test]
fn wants_are_unmarked_and_ended(rt: HostRuntime) -> Result<(), Fail> {
    let mut table = wanted(rt.alloc()).ok_or("wants")?;
    table.unmark(session(1), Unit::One);
    assert!(rt; marked(&table, session(1)) == 0 && marked(&table, session(2)) == 1);
    assert!(rt; table.quit(session(1)) && !table.quit(session(1)));
    assert!(rt; table.of(session(1)).is_empty() && table.of(session(2)).len() == 1);
    Ok(())
}

#[test]
fn countdowns_come_due_and_begin_again(rt: HostRuntime) -> Result<(), Fail> {
    let mut due = Countdowns::open(rt.alloc()).ok().ok_or("memory")?;
    for (group, left) in [(1u32, 30_000u32), (2, 4_000), (1, 7)] {
        if due.len() >= 64 {
            return Err(Fail::from("no room"));
        }
        due.begin(session(group), left);
    }
    assert!(rt; due.len() == 2 && due.at(0) == Some((session(1), 30_000)) && due.at(2).is_none());

    // A period of 30,000 ms: the one that is due has 15,000 and 17 more left, less the 1,000 that it is late.
    let fired = due.tick(7_500, 5_000, 30_018);
    assert!(rt; fired.as_slice() == [session(2)].as_slice() && !fired.has(session(1)));
    assert!(rt; due.at(0) == Some((session(1), 25_000)) && due.at(1) == Some((session(2), 14_017)));
    due.stop(session(1));
    assert!(rt; !due.has(session(1)) && due.has(session(2)));
    due.clear();
    assert!(rt; due.len() == 0);
    Ok(())
}
