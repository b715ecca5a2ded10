//! A lane is told, told again, and told of nothing.
use rsvp_base::{Addr, Flow, Part, Peak, Rate, Sender, Senders, Session, StyleKind, Unit};
use sent_state::LaneTable;
use std::test::Fail;
use style_rules::Parts;

fn parts(r: u64) -> Option<Parts> {
    let flow = Flow::new(Rate::of(r)?, Rate::of(8)?, Peak::Infinite, 1, 1500)?;
    let sender = Sender {
        addr: Addr(7),
        port: 5004,
    };
    let senders = Senders::of(&[sender]).ok()?;
    let mut all = Parts::new();
    all.put(Unit::One, Part { senders, flow }).ok()?;
    Some(all)
}

const SESSION: Session = Session {
    group: Addr(1),
    proto: 17,
    port: 5004,
};

const HOP: (u8, Addr) = (1, Addr(9));

// Whether a lane was not told of these parts before, and keeps them when it is.
fn is_told(lanes: &mut LaneTable, style: StyleKind, r: u64) -> Option<bool> {
    let now = parts(r)?;
    if lanes.is_said(SESSION, style, HOP, &now) {
        return Some(false);
    }
    if lanes.len() >= 1536 {
        return None;
    }
    lanes.tell(SESSION, style, HOP, now);
    Some(lanes.is_said(SESSION, style, HOP, &parts(r)?))
}

// Whether a lane that is told of nothing keeps that.
fn is_told_of_nothing(lanes: &mut LaneTable) -> bool {
    if lanes.len() >= 1536 {
        return false;
    }
    lanes.tell(SESSION, StyleKind::Shared, HOP, Parts::new());
    lanes.is_said(SESSION, StyleKind::Shared, HOP, &Parts::new())
}

// Whether a lane was told of nothing, or not told.
fn is_silent(lanes: &LaneTable, style: StyleKind) -> bool {
    lanes.said(SESSION, style, HOP).is_empty()
}

#[test]
fn a_lane_keeps_what_it_was_last_told(rt: HostRuntime) -> Result<(), Fail> {
    let mut lanes = LaneTable::open(rt.alloc()).or(Err("memory"))?;
    for (r, style) in [
        (10u64, StyleKind::Shared),
        (20, StyleKind::Shared),
        (10, StyleKind::Wild),
    ] {
        assert!(rt; is_told(&mut lanes, style, r) == Some(true));
    }
    assert!(rt; lanes.said(SESSION, StyleKind::Shared, HOP).len() == 1);
    assert!(rt; is_silent(&lanes, StyleKind::Fixed));
    assert!(rt; is_told_of_nothing(&mut lanes));
    lanes.clear();
    assert!(rt; is_silent(&lanes, StyleKind::Wild));
    Ok(())
}
