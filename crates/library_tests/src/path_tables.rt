//! A session with 16 senders, and a 17th; a path that is torn, and paths that die; an ADSPEC that is kept with its path.
use path_state::{PathFact, PathTable};
use rsvp_base::{Addr, Flow, Full, Hop, Peak, Rate, Sender, Session};
use rsvp_objects::{Adspec, Fragments};
use std::test::Fail;

const SESSION: Session = Session {
    group: Addr(1),
    proto: 17,
    port: 5004,
};

fn sender(port: u16) -> Sender {
    Sender {
        addr: Addr(1),
        port,
    }
}

fn told(latency: u32) -> Adspec {
    Adspec {
        broken: false,
        hops: 1,
        rate: Peak::Infinite,
        latency,
        mtu: 1500,
        load: Some(false),
        others: Fragments::new(),
    }
}

fn path(port: u16, adspec: Option<Adspec>) -> Option<PathFact> {
    let tspec = Flow::new(Rate::of(10)?, Rate::of(10)?, Peak::Infinite, 1, 1500)?;
    Some(PathFact {
        session: SESSION,
        sender: sender(port),
        iface: 0,
        hop: Hop {
            addr: Addr(7),
            handle: 0,
        },
        tspec,
        police: true,
        adspec,
    })
}

// What the table answers to a path with 100 ms left, where no dead one waits.
fn learn(table: &mut PathTable, port: u16, adspec: Option<Adspec>) -> Option<Result<(), Full>> {
    let fact = path(port, adspec)?;
    let None = table.pull_dead() else {
        return None;
    };
    Some(table.learn(fact, 100))
}

// Whether the paths of 16 senders are learnt, and that of a 17th is not.
fn is_filled(table: &mut PathTable) -> bool {
    for port in 0u16..17 {
        let answer = if port < 16 { Ok(()) } else { Err(Full) };
        if learn(table, port, None) != Some(answer) {
            return false;
        }
    }
    true
}

// The port of the sender at a place.
fn port_at(table: &PathTable, place: usize) -> Option<u16> {
    match table.at(SESSION, place) {
        Some(fact) => Some(fact.sender.port),
        None => None,
    }
}

// Whether all 16 senders come in by one interface, and none by another.
fn has_one_hop(table: &PathTable) -> bool {
    table.senders_via(SESSION, 0, Addr(7)).len() == 16
        && table.senders_via(SESSION, 1, Addr(7)).is_empty()
        && table.hops(SESSION).as_slice() == [(0u8, Addr(7))].as_slice()
}

// Whether a path is torn, and is found no more.
fn is_torn(table: &mut PathTable) -> bool {
    let Some(torn) = table.tear(SESSION, sender(0)) else {
        return false;
    };
    torn.sender == sender(0) && table.find(SESSION, sender(0)).is_none()
}

// The latency that the path of a sender tells.
fn latency_of(table: &PathTable, port: u16) -> Option<u32> {
    let fact = table.find(SESSION, sender(port))?;
    match &fact.adspec {
        Some(adspec) => Some(adspec.latency),
        None => None,
    }
}

// Whether a path has the ADSPEC with which it was learnt last, and none where it had none then.
fn keeps_adspecs(table: &mut PathTable) -> bool {
    let is_told = learn(table, 1, Some(told(100))) == Some(Ok(()))
        && latency_of(table, 1) == Some(100);
    let is_other = learn(table, 1, Some(told(101))) == Some(Ok(()))
        && latency_of(table, 1) == Some(101);
    let is_silent = learn(table, 1, None) == Some(Ok(())) && latency_of(table, 1) == None;
    is_told && is_other && is_silent
}

// Whether paths die with their time, and none waits in a table that is cleared.
fn is_dead(table: &mut PathTable) -> bool {
    let None = table.pull_dead() else {
        return false;
    };
    table.advance(100);
    let is_gone = port_at(table, 0) == None && table.pull_dead().is_some();
    table.clear();
    is_gone && table.pull_dead().is_none()
}

#[test]
fn a_session_has_16_senders_and_no_17th(rt: HostRuntime) -> Result<(), Fail> {
    let mut table = PathTable::open(rt.alloc()).or(Err("memory"))?;
    assert!(rt; is_filled(&mut table));
    assert!(rt; port_at(&table, 15) == Some(15) && port_at(&table, 16) == None);
    assert!(rt; has_one_hop(&table));
    assert!(rt;
        table.has_address(SESSION, Addr(1))
            && !table.has_address(SESSION, Addr(2))
            && table.has_session(SESSION)
    );
    assert!(rt; keeps_adspecs(&mut table));
    assert!(rt; is_torn(&mut table) && is_dead(&mut table));
    Ok(())
}
