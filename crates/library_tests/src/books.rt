//! An interface filled to its capacity and refreshed there, and the order in which its entries are listed.
use admission_book::{Book, EntryKey, Iface, Refused};
use rsvp_base::{Addr, Flow, Peak, Rate, Sender, Session, StyleKind, Unit};
use std::alloc::Global;
use std::test::Fail;

// The book of interfaces of these capacities.
fn opened(alloc: Global, capacities: &[u64]) -> Result<Book, Fail> {
    let mut ifaces = Vec::new(alloc);
    for capacity in capacities {
        ifaces.push(Iface {
            addr: Addr(1),
            capacity: *capacity,
            mtu: 1500,
            latency: 0,
        })?;
    }
    Ok(Book::open(alloc, &ifaces).ok().ok_or("memory")?)
}

fn flow(r: u64, most: u32) -> Option<Flow> {
    Flow::new(Rate::of(r)?, Rate::of(2000)?, Peak::Infinite, 64, most)
}

fn key(group: u32, style: StyleKind, unit: Unit) -> EntryKey {
    EntryKey {
        session: Session {
            group: Addr(group),
            proto: 17,
            port: 5004,
        },
        style,
        unit,
    }
}

fn sender(port: u16) -> Unit {
    Unit::Of(Sender {
        addr: Addr(1),
        port,
    })
}

fn refused(want: u64, free: u64) -> Result<(), Refused> {
    Err(Refused::Rate { want, free })
}

// Makes the entry of an interface this flow, and tells the answer and what the interface holds then.
fn changed(
    book: &mut Book,
    iface: u8,
    key: EntryKey,
    now: Option<Flow>,
) -> Option<(Result<(), Refused>, u64)> {
    if (iface as usize) < book.ifaces().len() && book.has_room() {
        let answer = book.try_change(iface, key, now);
        Some((answer, book.held(iface)))
    } else {
        None
    }
}

#[test]
fn an_interface_promises_its_capacity_and_no_more(rt: HostRuntime) -> Result<(), Fail> {
    let mut book = opened(rt.alloc(), &[1000, 10])?;
    let a = key(1, StyleKind::Fixed, sender(1));
    let b = key(1, StyleKind::Fixed, sender(2));
    let c = key(2, StyleKind::Wild, Unit::One);
    for (iface, key, now, answer, held) in [
        (0u8, a, flow(400, 1500), Ok(()), 400u64),
        (0, b, flow(500, 1500), Ok(()), 900),
        (0, c, flow(101, 1500), refused(101, 100), 900),
        (0, c, flow(100, 1500), Ok(()), 1000),
        (0, a, flow(500, 1500), refused(500, 400), 1000),
        (0, a, flow(400, 1500), Ok(()), 1000),
        (
            0,
            a,
            flow(500, 1501),
            Err(Refused::Mtu {
                most: 1501,
                mtu: 1500,
            }),
            1000,
        ),
        (1, a, flow(11, 1500), refused(11, 10), 0),
        (1, a, flow(10, 1500), Ok(()), 10),
        (0, b, None, Ok(()), 500),
        (0, b, None, Ok(()), 500),
        (0, a, flow(900, 1500), Ok(()), 1000),
    ] {
        assert!(rt; changed(&mut book, iface, key, now) == Some((answer, held)));
    }
    assert!(rt; book.held(2) == 0);
    Ok(())
}

#[test]
fn entries_stand_by_session_style_and_unit(rt: HostRuntime) -> Result<(), Fail> {
    let mut book = opened(rt.alloc(), &[10, 10, 10])?;
    let first = key(1, StyleKind::Shared, Unit::One);
    let second = key(2, StyleKind::Wild, Unit::One);
    let third = key(2, StyleKind::Fixed, sender(1));
    let fourth = key(2, StyleKind::Fixed, sender(2));
    let fifth = key(2, StyleKind::Shared, Unit::One);
    let one = flow(1, 1500);
    for (iface, key, held) in [
        (1u8, fourth, 1u64),
        (2, first, 1),
        (1, first, 2),
        (1, fifth, 3),
        (0, fifth, 1),
        (1, third, 4),
        (1, second, 5),
    ] {
        assert!(rt; changed(&mut book, iface, key, one) == Some((Ok(()), held)));
    }
    for (k, key) in [first, second, third, fourth, fifth].iter().enumerate() {
        let listed = book.at(1, k).ok_or("entry")?;
        assert!(rt; listed.0 == *key && Some(listed.1) == one);
    }
    assert!(rt; book.at(1, 5).is_none());
    assert!(rt; book.entry(2, &first) == one && book.entry(0, &first).is_none());
    Ok(())
}
