//! Trees that grow and do not, a loop across trees, and what a routing answers.
use crate::networks::{GROUP, routing, with_ends};
use rsvp_base::Addr;
use std::alloc::Global;
use std::test::Fail;
use tree_routing::{HopErr, HopFault, LinkHop, Routing, Topology};

const A1: u32 = 0x0a00_0101;

const B1: u32 = 0x0a00_0102;

const B2: u32 = 0x0a00_0201;

const C1: u32 = 0x0a00_0202;

const C2: u32 = 0x0a00_0301;

const A2: u32 = 0x0a00_0302;

// Another group.
const OTHER: Addr = Addr(0xef01_0100);

// Three nodes in a ring: the ends a1, a2, b1, b2, c1, c2 by number, and the links a1 to b1, b2 to c1, c2 to a2.
fn ring(alloc: Global) -> Option<Topology> {
    with_ends(
        alloc,
        3,
        &[(0, A1), (0, A2), (1, B1), (1, B2), (2, C1), (2, C2)],
        &[(0, 2), (3, 4), (5, 1)],
    )
}

// The answer to one more hop, where there is room for it.
fn added(net: &mut Topology, source: u32, from: u16, to: u16) -> Option<Result<(), HopErr>> {
    if net.has_room_for_hop() {
        Some(net.add_hop(GROUP, Addr(source), from, to))
    } else {
        None
    }
}

#[test]
fn a_loop_across_trees(rt: HostRuntime) -> Result<(), Fail> {
    let mut net = ring(rt.alloc()).ok_or("a ring")?;
    let looped = Err(HopErr::Loop {
        group: GROUP,
        from: 0,
        to: 2,
    });
    for (source, from, to, answer) in [
        (A1, 0u16, 2u16, Ok(())),
        (A1, 3, 4, Ok(())),
        (B2, 3, 4, Ok(())),
        (B2, 5, 1, Ok(())),
        (C2, 5, 1, Ok(())),
        (C2, 0, 2, looped),
        // The refusal changed nothing: the hop is refused for the same reason.
        (C2, 0, 2, looped),
        // Another hop can still be added.
        (B1, 3, 4, Ok(())),
    ] {
        let said = added(&mut net, source, from, to);
        assert!(rt; said == Some(answer), "at {source}: {from} to {to}");
    }
    Ok(())
}

// Nodes s, r and t in a row: the ends s1, r1, r2, t1 by number.
fn row(alloc: Global) -> Option<Topology> {
    with_ends(
        alloc,
        3,
        &[(0, A1), (1, B1), (1, B2), (2, C1)],
        &[(0, 1), (3, 2)],
    )
}

#[test]
fn a_tree_grows_from_its_root(rt: HostRuntime) -> Result<(), Fail> {
    let mut net = row(rt.alloc()).ok_or("a row")?;
    for (what, source, from, to, answer) in [
        ("out of the root", A1, 0u16, 1u16, Ok(())),
        ("on to the end", A1, 2, 3, Ok(())),
        ("into a node of the tree", A1, 2, 3, Err(HopErr::NotTree)),
        ("back to the root", A1, 1, 0, Err(HopErr::NotTree)),
        (
            "from a node that is not reached",
            B1,
            0,
            1,
            Err(HopErr::NotTree),
        ),
        ("ends of two links", B1, 1, 3, Err(HopErr::NotTree)),
        ("an end that is not there", B1, 9, 3, Err(HopErr::NotTree)),
        ("a source that no end has", C2, 2, 3, Err(HopErr::NotTree)),
    ] {
        let said = added(&mut net, source, from, to);
        assert!(rt; said == Some(answer), "{what}");
    }
    Ok(())
}

#[test]
fn a_hop_that_is_refused_has_a_reason(rt: HostRuntime) -> Result<(), Fail> {
    let mut net = row(rt.alloc()).ok_or("a row")?;
    let _root = added(&mut net, A1, 0, 1);
    for (what, from, to, fault) in [
        ("on to the end", 2u16, 3u16, None),
        ("ends of two links", 1, 3, Some(HopFault::NoLink)),
        ("into a node of the tree", 0, 1, Some(HopFault::Twice)),
        ("the other way round", 3, 2, Some(HopFault::Reversed)),
    ] {
        let found = net.growing_fault(GROUP, Addr(A1), LinkHop { from, to });
        assert!(rt; found == fault, "{what}");
    }
    let hops = [LinkHop { from: 2, to: 3 }, LinkHop { from: 0, to: 1 }];
    assert!(rt; net.tree_fault(Addr(A1), &hops) == Some((0, HopFault::Early)));
    Ok(())
}

#[test]
fn a_routing_of_nothing_has_no_tree(rt: HostRuntime) -> Result<(), Fail> {
    let net = with_ends(rt.alloc(), 0, &[], &[]).ok_or("no node")?;
    let empty = routing(net, &[]).ok_or("a routing")?;
    assert!(rt; empty.nodes() == 0 && empty.longest() == 0 && empty.tree(0).is_none());
    Ok(())
}

// A copy of the row's routing, with a tree from s to t, and one of another group from t to s.
fn there_and_back(alloc: Global) -> Option<Routing> {
    let net = routing(
        row(alloc)?,
        &[
            (GROUP.0, A1, 0, 1),
            (GROUP.0, A1, 2, 3),
            (OTHER.0, C1, 3, 2),
            (OTHER.0, C1, 1, 0),
        ],
    )?;
    net.copy().ok()
}

#[test]
fn a_routing_knows_its_trees(rt: HostRuntime) -> Result<(), Fail> {
    let net = there_and_back(rt.alloc()).ok_or("a routing")?;
    assert!(rt; net.nodes() == 3 && net.longest() == 2);
    for (place, tree) in [
        (0, Some((OTHER, Addr(C1)))),
        (1, Some((GROUP, Addr(A1)))),
        (2, None),
    ] {
        assert!(rt; net.tree(place) == tree);
    }
    Ok(())
}

#[test]
fn a_routing_knows_the_ways_of_a_tree(rt: HostRuntime) -> Result<(), Fail> {
    let net = there_and_back(rt.alloc()).ok_or("a routing")?;
    for (node, inward, outward) in [(0u16, None, 1u16), (1, Some(0u8), 2), (2, Some(0), 0)] {
        assert!(rt; net.inward(node, GROUP, Addr(A1)) == inward, "into {node}");
        assert!(rt;
            net.outward(node, GROUP, Addr(A1)) == outward,
            "out of {node}"
        );
    }
    Ok(())
}

#[test]
fn a_routing_knows_the_far_ends_of_its_links(rt: HostRuntime) -> Result<(), Fail> {
    let net = there_and_back(rt.alloc()).ok_or("a routing")?;
    for (end, far) in [(0u16, Some(1u16)), (1, Some(0)), (2, Some(3)), (3, Some(2))] {
        assert!(rt;
            net.far(end, 0) == far && net.far(end, 1).is_none(),
            "far of {end}"
        );
    }
    Ok(())
}
