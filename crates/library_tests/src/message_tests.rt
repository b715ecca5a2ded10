//! Lists of fixed filters at the ends of their room, and copies of each message.
use rsvp_base::{
    Addr, ErrSpec, Flow, Full, Hop, Part, Peak, Rate, Sender, Senders, Session, StyleKind,
};
use rsvp_messages::{
    Ask, Blame, FixedList, Kind, Message, PathErrMsg, PathMsg, PathTearMsg, ResvConfMsg,
    ResvErrMsg, ResvMsg, ResvTearMsg, Tear,
};
use rsvp_objects::{Adspec, Fragments};
use std::test::Fail;

const SESSION: Session = Session {
    group: Addr(0xef01_0101),
    proto: 17,
    port: 5004,
};

const HOP: Hop = Hop {
    addr: Addr(0x0a00_0101),
    handle: 7,
};

fn sender(port: u16) -> Sender {
    Sender {
        addr: Addr(0x0a00_0101),
        port,
    }
}

fn flow(r: u64) -> Option<Flow> {
    Flow::new(Rate::of(r)?, Rate::of(2000)?, Peak::Infinite, 64, 1500)
}

fn some(ports: &[u16]) -> Option<Senders> {
    let mut senders = Senders::new();
    for port in ports {
        senders.insert(sender(*port)).ok()?;
    }
    Some(senders)
}

// A list with the large flow for the ports 3 and 9, of which the second was small.
fn two(small: Flow, large: Flow) -> Option<FixedList> {
    let mut list = FixedList::new(sender(9), small);
    list.put(sender(3), large).ok()?;
    list.put(sender(9), large).ok()?;
    Some(list)
}

#[test]
fn a_fixed_list_has_each_sender_once_in_order(rt: HostRuntime) -> Result<(), Fail> {
    let large = flow(500).ok_or("large")?;
    let list = two(flow(300).ok_or("small")?, large).ok_or("room")?;
    assert!(rt; list.len() == 2);
    for (place, entry) in [
        (0, Some((sender(3), large))),
        (1, Some((sender(9), large))),
        (2, None),
    ] {
        assert!(rt; list.at(place) == entry);
    }
    Ok(())
}

// The same with the ports 100 to 113.
fn sixteen(small: Flow, large: Flow) -> Option<FixedList> {
    let mut list = two(small, large)?;
    for port in 100..114 {
        list.put(sender(port), small).ok()?;
    }
    Some(list)
}

#[test]
fn a_fixed_list_has_at_most_sixteen_senders(rt: HostRuntime) -> Result<(), Fail> {
    let small = flow(300).ok_or("small")?;
    let mut list = sixteen(small, flow(500).ok_or("large")?).ok_or("room")?;
    assert!(rt; list.len() == 16);
    assert!(rt; list.put(sender(1), small) == Err(Full));
    assert!(rt; list.put(sender(3), small) == Ok(()));
    assert!(rt; list.at(0) == Some((sender(3), small)));
    assert!(rt; list.copy().as_slice() == list.as_slice());
    Ok(())
}

fn each_message() -> Option<[Message; 7]> {
    let usual = flow(1000)?;
    let err = ErrSpec {
        node: Addr(1),
        in_place: true,
        not_guilty: false,
        code: 1,
        value: 2,
    };
    Some([
        Message::Path(PathMsg {
            session: SESSION,
            police: true,
            hop: HOP,
            period: 30_000,
            sender: Some((sender(5004), usual)),
            adspec: Some(Adspec {
                broken: true,
                hops: 3,
                rate: Peak::Infinite,
                latency: 250,
                mtu: 1400,
                load: Some(true),
                others: Fragments::new(),
            }),
        }),
        Message::Resv(ResvMsg {
            session: SESSION,
            hop: HOP,
            period: 30_000,
            confirm: Some(Addr(2)),
            ask: Ask::Wild {
                scope: Some(some(&[0])?),
                flow: usual,
            },
        }),
        Message::PathErr(PathErrMsg {
            session: SESSION,
            err,
            sender: None,
        }),
        Message::ResvErr(ResvErrMsg {
            session: SESSION,
            hop: HOP,
            err,
            blame: Blame {
                style: StyleKind::Shared,
                senders: Some(some(&[1, 2])?),
                flow: Some(usual),
            },
        }),
        Message::PathTear(PathTearMsg {
            session: SESSION,
            hop: HOP,
            sender: Some(sender(5004)),
        }),
        Message::ResvTear(ResvTearMsg {
            session: SESSION,
            hop: HOP,
            tear: Tear::Fixed(some(&[3])?),
        }),
        Message::ResvConf(ResvConfMsg {
            session: SESSION,
            err,
            confirm: Addr(2),
            ask: Ask::Shared(Part {
                senders: some(&[4, 5])?,
                flow: usual,
            }),
        }),
    ])
}

// What is asked for, as senders and one flow.
fn asked(ask: &Ask) -> (Option<Sender>, Option<Flow>) {
    match ask {
        Ask::Wild {
            scope: Some(scope),
            flow,
        } => (scope.at(0), Some(*flow)),
        Ask::Wild { scope: None, flow } => (None, Some(*flow)),
        Ask::Fixed(list) => match list.at(0) {
            Some((sender, flow)) => (Some(sender), Some(flow)),
            None => (None, None),
        },
        Ask::Shared(part) => (part.senders.at(0), Some(part.flow)),
    }
}

#[test]
fn each_message_is_copied_as_its_kind(rt: HostRuntime) -> Result<(), Fail> {
    let messages = each_message().ok_or("messages")?;
    let kinds = [
        Kind::Path,
        Kind::Resv,
        Kind::PathErr,
        Kind::ResvErr,
        Kind::PathTear,
        Kind::ResvTear,
        Kind::ResvConf,
    ];
    for (message, kind) in messages.iter().zip(kinds) {
        assert!(rt; message.copy().kind() == kind);
    }
    Ok(())
}

// What is asked for of the copy of a copy, and for whom a Resv or a ResvConf is confirmed.
fn copied(message: &Message) -> Option<(Option<Addr>, Option<Sender>, Option<Flow>)> {
    match message.copy() {
        Message::Resv(resv) => {
            let (sender, flow) = asked(&resv.copy().ask);
            Some((resv.confirm, sender, flow))
        }
        Message::ResvConf(conf) => {
            let (sender, flow) = asked(&conf.ask.copy());
            Some((Some(conf.confirm), sender, flow))
        }
        _ => None,
    }
}

// The style that the copy of a ResvErr's copy blames.
fn blamed(message: &Message) -> Option<StyleKind> {
    match message.copy() {
        Message::ResvErr(error) => Some(error.blame.copy().style),
        _ => None,
    }
}

#[test]
fn what_is_asked_and_blamed_is_copied(rt: HostRuntime) -> Result<(), Fail> {
    let messages = each_message().ok_or("messages")?;
    assert!(rt; copied(&messages[1]) == Some((Some(Addr(2)), Some(sender(0)), flow(1000))));
    assert!(rt; blamed(&messages[3]) == Some(StyleKind::Shared));
    assert!(rt; copied(&messages[6]) == Some((Some(Addr(2)), Some(sender(4)), flow(1000))));
    Ok(())
}
