//! What the ends of worked networks owe.
use crate::networks::{GROUP, routing, with_ends};
use network_demand::{Demand, LocalSender, LocalWant, Locals, Routing, can_ask, demand};
use rsvp_base::{Addr, Flow, Part, Peak, Rate, Sender, Senders, Session, StyleKind};
use std::alloc::Global;
use std::test::Fail;
use tree_routing::Topology;

const SESSION: Session = Session {
    group: GROUP,
    proto: 17,
    port: 5004,
};

// A want at a node for a session and style: the senders that it names, and its flow.
type Want<'a> = (u16, Session, StyleKind, &'a [Sender], Flow);

// An entry of an end: the senders that it names, and its flow.
type Entry<'a> = (Session, StyleKind, &'a [Sender], Flow);

fn flow(r: u64, b: u64, low: u32, most: u32) -> Option<Flow> {
    Flow::new(Rate::of(r)?, Rate::of(b)?, Peak::Infinite, low, most)
}

fn sender(addr: u32, port: u16) -> Sender {
    Sender {
        addr: Addr(addr),
        port,
    }
}

fn want(
    node: u16,
    session: Session,
    style: StyleKind,
    names: &[Sender],
    flow: Flow,
) -> Option<LocalWant> {
    let senders = Senders::of(names).ok()?;
    Some(LocalWant {
        node,
        session,
        style,
        part: Part { senders, flow },
    })
}

// What these senders and wants come to.
fn come_to(
    alloc: Global,
    net: &Routing,
    senders: &[(u16, Session, Sender)],
    wants: Vec<LocalWant>,
) -> Option<Demand> {
    let mut all = Vec::new(alloc);
    for (node, session, sender) in senders {
        let local = LocalSender {
            node: *node,
            session: *session,
            sender: *sender,
        };
        all.push(local).ok()?;
    }
    let locals = Locals {
        senders: all,
        wants,
    };
    if !can_ask(net, &locals) {
        return None;
    }
    demand(alloc, net, &locals).ok()
}

// The same of a list of wants.
fn settled(
    alloc: Global,
    net: &Routing,
    senders: &[(u16, Session, Sender)],
    wants: &[Want],
) -> Option<Demand> {
    let mut all = Vec::new(alloc);
    for (node, session, style, names, flow) in wants {
        all.push(want(*node, *session, *style, names, *flow)?).ok()?;
    }
    come_to(alloc, net, senders, all)
}

// Whether a list has these senders and no others.
fn names(senders: &Senders, wanted: &[Sender]) -> bool {
    for name in wanted {
        if !senders.has(*name) {
            return false;
        }
    }
    senders.len() == wanted.len()
}

// Whether an end owes these entries and no others, in this order.
fn owes(demand: &Demand, end: usize, entries: &[Entry]) -> bool {
    let Some(book) = demand.ends.get(end) else {
        return false;
    };
    let listed = book.as_slice();
    for ((key, part), (session, style, senders, flow)) in listed.iter().zip(entries) {
        let is_it = key.session == *session && key.style == *style && part.flow == *flow;
        if !is_it || !names(&part.senders, senders) {
            return false;
        }
    }
    listed.len() == entries.len()
}

const S1: u32 = 0x0a00_0101;

// A host s sends by way of a router r to hosts t and u: the ends s1, r1, r2, t1, r3, u1.
fn fork(alloc: Global) -> Option<Routing> {
    let net = with_ends(
        alloc,
        4,
        &[
            (0, S1),
            (1, 0x0a00_0102),
            (1, 0x0a00_0201),
            (2, 0x0a00_0202),
            (1, 0x0a00_0301),
            (3, 0x0a00_0302),
        ],
        &[(0, 1), (2, 3), (4, 5)],
    )?;
    routing(
        net,
        &[
            (GROUP.0, S1, 0, 1),
            (GROUP.0, S1, 2, 3),
            (GROUP.0, S1, 4, 5),
        ],
    )
}

// The larger rate, not the sum; and of each other value the larger, or the smaller least size.
#[test]
fn wildcards_merge_toward_the_source(rt: HostRuntime) -> Result<(), Fail> {
    let net = fork(rt.alloc()).ok_or("a fork")?;
    let deep = flow(300, 600, 64, 1500).ok_or("flow")?;
    let fast = flow(500, 400, 128, 1000).ok_or("flow")?;
    let merged = flow(500, 600, 64, 1500).ok_or("flow")?;
    let demand = settled(
        rt.alloc(),
        &net,
        &[(0, SESSION, sender(S1, 5004))],
        &[
            (2, SESSION, StyleKind::Wild, &[], deep),
            (3, SESSION, StyleKind::Wild, &[], fast),
        ],
    )
    .ok_or("a demand")?;
    assert!(rt;
        owes(
            &demand,
            0,
            &[(SESSION, StyleKind::Wild, &[sender(S1, 0)], merged)]
        )
    );
    Ok(())
}

// What a want of the sender at port 5004 and one of the sender at port 5006 come to.
fn of_two_senders(
    alloc: Global,
    net: &Routing,
    style: (StyleKind, StyleKind),
    flow: (Flow, Flow),
) -> Option<Demand> {
    let first = sender(S1, 5004);
    let second = sender(S1, 5006);
    settled(
        alloc,
        net,
        &[(0, SESSION, first), (0, SESSION, second)],
        &[
            (2, SESSION, style.0, &[first], flow.0),
            (3, SESSION, style.1, &[second], flow.1),
        ],
    )
}

// Fixed filters add up, and a shared filter joins.
#[test]
fn filters_add_up_or_join_toward_the_source(rt: HostRuntime) -> Result<(), Fail> {
    let net = fork(rt.alloc()).ok_or("a fork")?;
    let first = sender(S1, 5004);
    let second = sender(S1, 5006);
    let small = flow(300, 300, 64, 1500).ok_or("flow")?;
    let large = flow(500, 500, 64, 1500).ok_or("flow")?;
    let fixed = StyleKind::Fixed;
    let apart = of_two_senders(rt.alloc(), &net, (fixed, fixed), (small, large)).ok_or("FF")?;
    assert!(rt;
        owes(
            &apart,
            0,
            &[
                (SESSION, fixed, &[first], small),
                (SESSION, fixed, &[second], large)
            ]
        )
    );
    let shared = StyleKind::Shared;
    let joined = of_two_senders(rt.alloc(), &net, (shared, shared), (small, large)).ok_or("SE")?;
    assert!(rt; owes(&joined, 0, &[(SESSION, shared, &[first, second], large)]));
    Ok(())
}

#[test]
fn both_ends_send_and_receive(rt: HostRuntime) -> Result<(), Fail> {
    let a = 0x0a00_0101;
    let b = 0x0a00_0102;
    let pair = with_ends(rt.alloc(), 2, &[(0, a), (1, b)], &[(0, 1)]).ok_or("a pair")?;
    let net = routing(pair, &[(GROUP.0, a, 0, 1), (GROUP.0, b, 1, 0)]).ok_or("trees")?;
    let small = flow(100, 100, 1, 1500).ok_or("flow")?;
    let large = flow(200, 200, 1, 1500).ok_or("flow")?;
    let demand = settled(
        rt.alloc(),
        &net,
        &[(0, SESSION, sender(a, 5004)), (1, SESSION, sender(b, 5004))],
        &[
            (0, SESSION, StyleKind::Wild, &[], small),
            (1, SESSION, StyleKind::Wild, &[], large),
        ],
    )
    .ok_or("a demand")?;
    assert!(rt; net.longest() == 1);
    assert!(rt;
        owes(
            &demand,
            0,
            &[(SESSION, StyleKind::Wild, &[sender(a, 0)], large)]
        )
    );
    assert!(rt;
        owes(
            &demand,
            1,
            &[(SESSION, StyleKind::Wild, &[sender(b, 0)], small)]
        )
    );
    Ok(())
}

const AUDIO: Session = Session {
    group: Addr(0xef02_0001),
    proto: 17,
    port: 5004,
};

const VIDEO: Session = Session {
    group: Addr(0xef02_0002),
    proto: 17,
    port: 5006,
};

// The address 10.1.i.1 of the host s of this number.
fn source(i: u16) -> u32 {
    0x0a01_0001 + 256 * u32::from(i)
}

// The address 10.1.i.2 of its router, on their link.
fn before(i: u16) -> u32 {
    0x0a01_0002 + 256 * u32::from(i)
}

// Routers p and q (nodes 0 and 1), hosts s1 to s4 at p (nodes 2 to 5), t1 to t10 at p and t11 to t20 at q (nodes 6 to 25).
// Link k has the ends 2k of a host and 2k + 1 of its router; the last link is that of p and q.
fn rooms(alloc: Global) -> Option<Topology> {
    let mut ends = Vec::new(alloc);
    let mut links = Vec::new(alloc);
    for i in 1..5u16 {
        ends.push((1 + i, source(i))).ok()?;
        ends.push((0, before(i))).ok()?;
    }
    for j in 1..21u16 {
        let addr = 0x0a02_0001 + 256 * u32::from(j);
        ends.push((5 + j, addr)).ok()?;
        ends.push((if j <= 10 { 0 } else { 1 }, addr + 1)).ok()?;
    }
    ends.push((0, 0x0a09_0001)).ok()?;
    ends.push((1, 0x0a09_0002)).ok()?;
    for k in 0..25u16 {
        links.push((2 * k, 2 * k + 1)).ok()?;
    }
    with_ends(alloc, 26, &ends, &links)
}

// The trees of both groups from each host s to each router and each host t.
fn conference(alloc: Global) -> Option<Routing> {
    let mut hops = Vec::new(alloc);
    for group in [AUDIO.group.0, VIDEO.group.0] {
        for i in 1..5u16 {
            hops.push((group, source(i), 2 * i - 2, 2 * i - 1)).ok()?;
            hops.push((group, source(i), 48, 49)).ok()?;
            for j in 1..21u16 {
                hops.push((group, source(i), 2 * j + 7, 2 * j + 6)).ok()?;
            }
        }
    }
    routing(rooms(alloc)?, &hops)
}

// Each host s sends to both groups. Each host t wants the audio of all; t11 to t15 want the large video of s1, and t16 to t20 the
// small video of s1 and s2.
fn wanted(alloc: Global, net: &Routing, audio: Flow, small: Flow, large: Flow) -> Option<Demand> {
    let mut senders = Vec::new(alloc);
    for i in 1..5u16 {
        senders.push((1 + i, AUDIO, sender(source(i), 5004))).ok()?;
        senders.push((1 + i, VIDEO, sender(source(i), 5006))).ok()?;
    }
    let both = [sender(source(1), 5006), sender(source(2), 5006)];
    let mut wants = Vec::new(alloc);
    for j in 1..21u16 {
        wants
            .push(want(5 + j, AUDIO, StyleKind::Wild, &[], audio)?)
            .ok()?;
    }
    for j in 11..16u16 {
        wants
            .push(want(5 + j, VIDEO, StyleKind::Shared, &both[..1], large)?)
            .ok()?;
    }
    for j in 16..21u16 {
        wants
            .push(want(5 + j, VIDEO, StyleKind::Shared, &both, small)?)
            .ok()?;
    }
    come_to(alloc, net, &senders, wants)
}

#[test]
fn a_conference(rt: HostRuntime) -> Result<(), Fail> {
    let net = conference(rt.alloc()).ok_or("a conference")?;
    assert!(rt; net.longest() == 3);
    let audio = flow(8000, 16_000, 64, 1500).ok_or("flow")?;
    let small = flow(62_500, 125_000, 64, 1500).ok_or("flow")?;
    let large = flow(125_000, 250_000, 64, 1500).ok_or("flow")?;
    let demand = wanted(rt.alloc(), &net, audio, small, large).ok_or("a demand")?;
    let both = [sender(source(1), 5006), sender(source(2), 5006)];
    let all = [
        sender(source(1), 0),
        sender(source(2), 0),
        sender(source(3), 0),
        sender(source(4), 0),
    ];
    let wild = StyleKind::Wild;
    let shared = StyleKind::Shared;
    assert!(rt;
        owes(
            &demand,
            48,
            &[(AUDIO, wild, &all, audio), (VIDEO, shared, &both, large)]
        )
    );
    assert!(rt;
        owes(
            &demand,
            2,
            &[
                (AUDIO, wild, &all[1..2], audio),
                (VIDEO, shared, &both[1..], large)
            ]
        )
    );
    assert!(rt; owes(&demand, 4, &[(AUDIO, wild, &all[2..3], audio)]));
    assert!(rt;
        owes(
            &demand,
            39,
            &[(AUDIO, wild, &all, audio), (VIDEO, shared, &both, small)]
        )
    );
    Ok(())
}

// Whether wants of two senders fit beyond one link of 10,000 bytes per second and an MTU of 1,500.
fn fit(
    alloc: Global,
    net: &Routing,
    style: (StyleKind, StyleKind),
    rate: u64,
    most: u32,
) -> Option<bool> {
    let flows = (flow(4000, 4000, 64, 1500)?, flow(rate, 6000, 64, most)?);
    Some(of_two_senders(alloc, net, style, flows)?.fits)
}

#[test]
fn demands_fit_or_not(rt: HostRuntime) -> Result<(), Fail> {
    let net = fork(rt.alloc()).ok_or("a fork")?;
    for (one, other, most, rate, fits) in [
        (StyleKind::Fixed, StyleKind::Fixed, 1500u32, 6000u64, true),
        (StyleKind::Fixed, StyleKind::Fixed, 1500, 6001, false),
        (StyleKind::Shared, StyleKind::Shared, 1500, 6001, true),
        (StyleKind::Shared, StyleKind::Shared, 1501, 6000, false),
        (StyleKind::Fixed, StyleKind::Shared, 1500, 6000, false),
    ] {
        let said = fit(rt.alloc(), &net, (one, other), rate, most);
        assert!(rt; said == Some(fits), "{rate} and {most}");
    }
    Ok(())
}
