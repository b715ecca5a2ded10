//! Worked merges and cuts, lists at the ends of their room, and each style through its bound.
use rsvp_base::{Addr, Flow, Full, Part, Peak, Rate, Sender, Senders, StyleKind, Unit};
use std::test::Fail;
use style_rules::{
    Fixed, Merger, Parts, Shared, Style, UpLine, Upstream, Wall, Wild, charge, cut, laws,
};

fn sender(port: u16) -> Sender {
    Sender {
        addr: Addr(0x0a00_0101),
        port,
    }
}

fn flow(r: u64, b: u64, low: u32, most: u32) -> Option<Flow> {
    Flow::new(Rate::of(r)?, Rate::of(b)?, Peak::Infinite, low, most)
}

fn part(ports: &[u16], flow: Flow) -> Option<Part> {
    let mut senders = Senders::new();
    for port in ports {
        senders.insert(sender(*port)).ok()?;
    }
    Some(Part { senders, flow })
}

fn is_part(part: &Part, ports: &[u16], flow: Flow) -> bool {
    part.flow == flow
        && part.senders.len() == ports.len()
        && ports.iter().all(|port| part.senders.has(sender(*port)))
}

// Whether the entry of a unit is this part.
fn has(parts: &Parts, unit: Unit, ports: &[u16], flow: Flow) -> bool {
    match parts.get(unit) {
        Some(part) => is_part(part, ports, flow),
        None => false,
    }
}

// Whether the entry at a place is this part.
fn stands(parts: &Parts, place: usize, ports: &[u16], flow: Flow) -> bool {
    match parts.at(place) {
        Some(part) => is_part(&part, ports, flow),
        None => false,
    }
}

// The requests merged in turn. `None` where there is no room.
fn merged<S: Style>(requests: &[(Part, bool)]) -> Option<Parts> {
    let mut merger = Merger::<S>::default();
    for (part, blockaded) in requests {
        if !merger.fits(part) {
            return None;
        }
        merger.add(part, *blockaded);
    }
    Some(merger.copy().finish())
}

// A request for the ports 5004 and 5006 each, merged.
fn two_requests<S: Style>(small: Flow, large: Flow) -> Option<Parts> {
    merged::<S>(&[
        (part(&[5004], small)?, false),
        (part(&[5006], large)?, false),
    ])
}

#[test]
fn fixed_parts_stay_apart_and_shared_ones_join(rt: HostRuntime) -> Result<(), Fail> {
    let small = flow(300, 300, 64, 1500).ok_or("small")?;
    let large = flow(500, 500, 64, 1500).ok_or("large")?;
    let fixed = two_requests::<Fixed>(small, large).ok_or("fixed")?;
    let shared = two_requests::<Shared>(small, large).ok_or("shared")?;
    assert!(rt;
        fixed.len() == 2
            && has(&fixed, Unit::Of(sender(5004)), &[5004], small)
            && has(&fixed, Unit::Of(sender(5006)), &[5006], large)
    );
    assert!(rt; shared.len() == 1 && stands(&shared, 0, &[5004, 5006], large));
    assert!(rt; shared.at(1).is_none());
    assert!(rt; fixed.is_same(&fixed.copy()) && !fixed.is_same(&shared));
    Ok(())
}

// Whether a deep and a fast request, each blockaded or not, merge to this flow.
fn merge_to(is_deep_blockaded: bool, is_fast_blockaded: bool, expected: Flow) -> Option<bool> {
    let whole = merged::<Wild>(&[
        (part(&[0], flow(9, 20, 1, 1500)?)?, is_deep_blockaded),
        (part(&[0], flow(10, 8, 4, 1000)?)?, is_fast_blockaded),
    ])?;
    Some(whole.len() == 1 && has(&whole, Unit::One, &[0], expected))
}

// Whether a request for nobody merges to nothing.
fn nobody_merges_to_nothing() -> Option<bool> {
    let whole = merged::<Wild>(&[(part(&[], flow(9, 20, 1, 1500)?)?, false)])?;
    Some(whole.is_empty())
}

#[test]
fn blockaded_requests_merge_to_their_meet(rt: HostRuntime) -> Result<(), Fail> {
    for (is_deep_blockaded, is_fast_blockaded, r, b, low, most) in [
        (true, true, 9, 8, 4, 1000),
        (false, true, 9, 20, 1, 1500),
        (true, false, 10, 8, 4, 1000),
        (false, false, 10, 20, 1, 1500),
    ] {
        let expected = flow(r, b, low, most).ok_or("flow")?;
        assert!(rt; merge_to(is_deep_blockaded, is_fast_blockaded, expected) == Some(true));
    }
    assert!(rt; nobody_merges_to_nothing() == Some(true));
    Ok(())
}

// The calls of a style, at two parts that fit together.
fn pair<S: Style>(a: &Part, b: &Part) -> Option<(Part, Part, bool)> {
    a.senders.union(&b.senders).ok()?;
    Some((S::join(a, b), S::meet(a, b), S::le(a, b)))
}

fn names<S: Style>(port: u16) -> (StyleKind, Sender, Unit) {
    (
        S::kind(),
        S::name_of(sender(port)),
        S::unit_of(sender(port)),
    )
}

#[test]
fn each_style_lists_senders_and_keeps_units(rt: HostRuntime) {
    for (listed, expected) in [
        (names::<Wild>(5004), (StyleKind::Wild, sender(0), Unit::One)),
        (
            names::<Fixed>(5004),
            (StyleKind::Fixed, sender(5004), Unit::Of(sender(5004))),
        ),
        (
            names::<Shared>(5004),
            (StyleKind::Shared, sender(5004), Unit::One),
        ),
    ] {
        assert!(rt; listed == expected);
    }
}

// Whether a style joins and meets two parts to these flows and the senders of both, of which the first is not at most the second.
fn joins_and_meets<S: Style>(one: &Part, other: &Part, joined: Flow, met: Flow) -> bool {
    match pair::<S>(one, other) {
        Some((join, meet, le)) => {
            is_part(&join, &[1, 2, 3], joined) && is_part(&meet, &[1, 2, 3], met) && !le
        }
        None => false,
    }
}

// Whether a part that is cut to the senders of some ports is left with those of others and this flow, or with nothing where there
// are none.
fn leaves(one: &Part, ports: &[u16], kept: &[u16], flow: Flow) -> bool {
    let Some(names) = part(ports, flow) else {
        return false;
    };
    match cut(one, &names.senders) {
        Some(left) => is_part(&left, kept, flow),
        None => kept.is_empty(),
    }
}

#[test]
fn joins_and_meets_have_the_senders_of_both(rt: HostRuntime) -> Result<(), Fail> {
    let deep = flow(9, 20, 1, 1500).ok_or("deep")?;
    let fast = flow(10, 8, 4, 1000).ok_or("fast")?;
    let met = flow(9, 8, 4, 1000).ok_or("met")?;
    let joined = flow(10, 20, 1, 1500).ok_or("joined")?;
    let one = part(&[1, 2], deep).ok_or("one")?;
    let other = part(&[2, 3], fast).ok_or("other")?;
    assert!(rt;
        joins_and_meets::<Wild>(&one, &other, joined, met)
            && joins_and_meets::<Fixed>(&one, &other, joined, met)
            && joins_and_meets::<Shared>(&one, &other, joined, met)
    );
    Ok(())
}

#[test]
fn a_part_is_charged_its_rate_and_cut_to_senders_of_its_own(rt: HostRuntime) -> Result<(), Fail> {
    let deep = flow(9, 20, 1, 1500).ok_or("deep")?;
    let one = part(&[1, 2], deep).ok_or("one")?;
    assert!(rt; charge(&one) == 9);
    assert!(rt; leaves(&one, &[2, 7], &[2], deep) && leaves(&one, &[7, 8], &[], deep));
    Ok(())
}

// The lists of the ports 15 to 0, one after the other.
fn sixteen(small: Flow) -> Option<(Parts, Upstream)> {
    let mut parts = Parts::default();
    let mut upstream = Upstream::default();
    for port in 0u16..16 {
        let line = UpLine {
            name: sender(15 - port),
            outward: port,
            wall: None,
        };
        parts
            .put(Unit::Of(sender(15 - port)), part(&[15 - port], small)?)
            .ok()?;
        upstream.add(line).ok()?;
    }
    Some((parts, upstream))
}

// The answer to one more part.
fn put_one(parts: &mut Parts, unit: Unit, port: u16, flow: Flow) -> Option<Result<(), Full>> {
    Some(parts.put(unit, part(&[port], flow)?))
}

#[test]
fn sixteen_parts_stand_in_order_and_have_no_17th(rt: HostRuntime) -> Result<(), Fail> {
    let small = flow(1, 1, 1, 1).ok_or("small")?;
    let large = flow(2, 1, 1, 1).ok_or("large")?;
    let (mut parts, _) = sixteen(small).ok_or("parts")?;
    assert!(rt; put_one(&mut parts, Unit::One, 1, large) == Some(Err(Full)));
    assert!(rt; put_one(&mut parts, Unit::Of(sender(3)), 3, large) == Some(Ok(())));
    let copied = parts.copy();
    assert!(rt;
        copied.as_slice().len() == 16
            && stands(&copied, 3, &[3], large)
            && stands(&copied, 4, &[4], small)
    );
    assert!(rt; copied.at(16).is_none() && copied.get(Unit::One).is_none());
    Ok(())
}

#[test]
fn sixteen_lines_stand_in_order_and_have_no_17th(rt: HostRuntime) -> Result<(), Fail> {
    let flow = flow(2, 1, 1, 1).ok_or("flow")?;
    let (_, mut upstream) = sixteen(flow).ok_or("lines")?;
    let blockaded = UpLine {
        name: sender(3),
        outward: 5,
        wall: Some(Wall { flow, sub: 2 }),
    };
    let strange = UpLine {
        name: sender(16),
        ..blockaded
    };
    assert!(rt; upstream.add(strange) == Err(Full));
    assert!(rt; upstream.add(blockaded) == Ok(()));
    let known = upstream.copy();
    assert!(rt; !known.is_empty() && known.len() == 16 && known.as_slice().len() == 16);
    assert!(rt; known.at(3) == Some(blockaded) && known.at(16) == None);
    assert!(rt; known.get(sender(3)).copied() == Some(blockaded));
    assert!(rt; known.get(sender(16)).is_none());
    Ok(())
}

// The laws do nothing when they run: what they say is their clause.
fn laws_of<S: Style>() {
    laws::at_most_is_an_order::<S>();
    laws::at_most_by_names_and_flow::<S>();
    laws::join_is_the_least_above::<S>();
    laws::names_and_flow_of_join_and_meet::<S>();
    laws::cut_is_below_and_monotone::<S>();
    laws::cut_of_a_cut::<S>();
    laws::charge_and_most_are_monotone::<S>();
    laws::merge_is_the_least_above_its_named_parts::<S>();
    laws::merge_keeps_the_style::<S>();
    laws::toward_is_at_most_the_merge::<S>();
    laws::toward_is_at_least_the_meet::<S>();
    laws::toward_is_the_join_of_the_open::<S>();
    laws::a_merger_has_room::<S>();
}

#[test]
fn the_laws_are_had_at_each_style(_rt: HostRuntime) {
    laws_of::<Wild>();
    laws_of::<Fixed>();
    laws_of::<Shared>();
}
