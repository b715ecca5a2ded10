//! Faults that are answered, and one that is not; an error that goes on, a confirmation, and flags.
use error_sends::{answer_for, confirms, passes_on, police_flags};
use rsvp_base::{Addr, ErrSpec, Flow, Hop, Part, Peak, Rate, Sender, Senders, Session, StyleKind};
use rsvp_messages::{Ask, Blame, Fault, Hint, Kind, MsgErr};
use rsvp_objects::ObjErr;
use std::test::Fail;
use style_rules::Parts;

#[test]
fn faults_of_a_path_and_a_resv_have_their_codes(rt: HostRuntime) -> Result<(), Fail> {
    let hint = Hint {
        session: Some(Session {
            group: Addr(1),
            proto: 17,
            port: 5004,
        }),
        hop: Some(Hop {
            addr: Addr(2),
            handle: 0,
        }),
        style: Some(StyleKind::Wild),
        sender: None,
    };
    for (kind, fault, answer) in [
        (
            Kind::Path,
            ObjErr::Class(8, 100, 1),
            Some((13u8, 25_601u16)),
        ),
        (Kind::Resv, ObjErr::CType(8, 9, 7), Some((14, 2311))),
        (Kind::Path, ObjErr::Tspec(8), Some((21, 4))),
        (Kind::Resv, ObjErr::Service(8), Some((21, 2))),
        (Kind::Resv, ObjErr::Flow(8), Some((21, 3))),
        (Kind::Resv, ObjErr::Tspec(8), None),
        (Kind::ResvErr, ObjErr::Class(8, 100, 1), None),
    ] {
        let err = MsgErr {
            fault: Fault::Object(fault),
            kind: Some(kind),
            hint,
        };
        assert!(rt; answer_for(&err) == answer);
    }
    Ok(())
}

const SENDER: Sender = Sender {
    addr: Addr(7),
    port: 5004,
};

fn flow() -> Option<Flow> {
    Flow::new(Rate::of(10)?, Rate::of(10)?, Peak::Infinite, 1, 1500)
}

// A part of one sender.
fn part() -> Option<Part> {
    Some(Part {
        senders: Senders::of(&[SENDER]).ok()?,
        flow: flow()?,
    })
}

// Whether an error beside a smaller reservation, which stands, goes on to a shared one that is blockaded or not.
fn goes_on(is_blockaded: bool) -> Option<bool> {
    let part = part()?;
    let err = ErrSpec {
        node: Addr(1),
        in_place: true,
        not_guilty: false,
        code: 1,
        value: 2,
    };
    let blame = Blame {
        style: StyleKind::Shared,
        senders: Some(part.senders.copy()),
        flow: Some(part.flow),
    };
    Some(passes_on(&err, &blame, StyleKind::Shared, &part, is_blockaded).is_some())
}

#[test]
fn an_error_beside_what_stands_goes_on_to_the_blockaded_alone(rt: HostRuntime) {
    assert!(rt; goes_on(false) == Some(false));
    assert!(rt; goes_on(true) == Some(true));
}

#[test]
fn a_confirmation_goes_to_whom_asked_for_it(rt: HostRuntime) -> Result<(), Fail> {
    let part = part().ok_or("a part")?;
    let ask = Ask::Shared(part.copy());
    for (kept, style, goes) in [
        (Some(Addr(9)), StyleKind::Shared, true),
        (Some(Addr(8)), StyleKind::Shared, false),
        (Some(Addr(9)), StyleKind::Fixed, false),
        (None, StyleKind::Shared, false),
    ] {
        assert!(rt; confirms(&part, kept, style, Addr(9), &ask) == goes);
    }
    Ok(())
}

#[test]
fn an_entry_of_two_paths_is_policed_and_merged(rt: HostRuntime) -> Result<(), Fail> {
    let flow = flow().ok_or("a flow")?;
    let flags = police_flags(StyleKind::Shared, 2, true, &flow, &Parts::new());
    assert!(rt; flags.e && flags.m && !flags.b);
    Ok(())
}
