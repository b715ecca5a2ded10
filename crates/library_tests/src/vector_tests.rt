//! Vectors of each kind of message, and the first faults of bytes that are none.
use crate::message_vectors::{
    PATH, PATH_ADSPEC, PATH_ERR, PATH_TEAR, RESV, RESV_CONF, RESV_ERR, RESV_TEAR,
};
use crate::object_vectors::{
    ADSPEC, CONFIRM, ERROR, FF, FILTER, FLOW, HOP, INTEGRITY, NULL, OTHER_FILTER, POLICY, SE,
    SESSION, TIME, WF, WHOLE_ADSPEC, bare, joined, message,
};
use message_codec::{decode, encode};
use rsvp_base::{Addr, Peak, Rate, Session};
use rsvp_messages::{Fault, Kind, Message, PathMsg};
use rsvp_objects::{ObjErr, Packet};
use std::test::Fail;

fn each() -> [(Kind, &'static [u8]); 8] {
    [
        (Kind::Path, PATH.as_slice()),
        (Kind::Path, PATH_ADSPEC.as_slice()),
        (Kind::Resv, RESV.as_slice()),
        (Kind::PathErr, PATH_ERR.as_slice()),
        (Kind::ResvErr, RESV_ERR.as_slice()),
        (Kind::PathTear, PATH_TEAR.as_slice()),
        (Kind::ResvTear, RESV_TEAR.as_slice()),
        (Kind::ResvConf, RESV_CONF.as_slice()),
    ]
}

// The first fault, if there is one.
fn fault(bytes: &[u8]) -> Option<Fault> {
    match decode(bytes) {
        Ok(_) => None,
        Err(error) => Some(error.fault),
    }
}

// The Path that these bytes are.
fn path(bytes: &[u8]) -> Option<PathMsg> {
    match decode(bytes) {
        Ok(Message::Path(path)) => Some(path),
        _ => None,
    }
}

#[test]
fn each_vector_is_read_and_written_as_it_was(rt: HostRuntime) -> Result<(), Fail> {
    for (kind, bytes) in each() {
        let read = decode(bytes).ok().ok_or("a message")?;
        assert!(rt; read.kind() == kind && encode(&read).bytes() == bytes);
    }
    Ok(())
}

#[test]
fn a_path_is_read(rt: HostRuntime) -> Result<(), Fail> {
    let path = path(&PATH).ok_or("a Path")?;
    let session = Session {
        group: Addr(0xef01_0101),
        proto: 17,
        port: 5004,
    };
    assert!(rt; path.session == session && path.police && path.period == 30_000);
    assert!(rt; path.adspec.is_none());
    Ok(())
}

#[test]
fn an_adspec_is_read_in_a_path(rt: HostRuntime) -> Result<(), Fail> {
    let path = path(&PATH_ADSPEC).ok_or("a Path")?;
    let adspec = path.adspec.ok_or("an ADSPEC")?;
    let rate = Peak::Finite(Rate::of(10_000).ok_or("a rate")?);
    assert!(rt; !adspec.broken && adspec.hops == 1 && adspec.rate == rate);
    assert!(rt; adspec.latency == 100 && adspec.mtu == 1500 && adspec.load == Some(false));
    assert!(rt; adspec.others.len() == 1 && adspec.others.at(0) == Some(0x0200_0000));
    Ok(())
}

// Whether these bytes are read, and the message is written as others.
fn is_written(bytes: &[u8], wanted: &[u8]) -> bool {
    match decode(bytes) {
        Ok(read) => encode(&read).bytes() == wanted,
        Err(_) => false,
    }
}

// The object may stand anywhere before the end of a Path, and is written last; a PathTear skips it.
#[test]
fn an_adspec_is_written_last_in_a_path_alone(rt: HostRuntime) {
    let first = message(1, &[&WHOLE_ADSPEC, &PATH[8..]]);
    assert!(rt; is_written(first.bytes(), &PATH_ADSPEC));
    let tear = message(5, &[&PATH_TEAR[8..], &WHOLE_ADSPEC]);
    assert!(rt; is_written(tear.bytes(), &PATH_TEAR));
}

// Each is cut at every length, and has each byte changed in turn: in its high half, and in its low half.
#[test]
fn what_is_cut_or_changed_is_refused(rt: HostRuntime) {
    for (_, bytes) in each() {
        for n in 0..bytes.len() {
            let short = if n < 8 { Fault::Short } else { Fault::Length };
            assert!(rt; fault(&bytes[..n]) == Some(short), "cut to {n}");
            for flipped in [0x10, 0x01] {
                let text = joined(&[&bytes[..n], &[bytes[n] ^ flipped], &bytes[n + 1..]]);
                let wrong = match n {
                    0 if flipped == 0x10 => Fault::Version,
                    6 | 7 => Fault::Length,
                    _ => Fault::Checksum,
                };
                assert!(rt; fault(text.bytes()) == Some(wrong), "changed at {n}");
            }
        }
    }
}

// The Path with other bytes 2 to 7, and an object behind SESSION.
fn path_with(middle: [u8; 6], object: &[u8]) -> Packet {
    joined(&[&PATH[..2], &middle, &PATH[8..20], object, &PATH[20..]])
}

#[test]
fn variants_of_the_path(rt: HostRuntime) {
    for (middle, object) in [
        ([0, 0, 64, 0, 0, 0x58], [].as_slice()),
        // The rest sums to ffff, and so does all with a field of ffff.
        ([0xff, 0xff, 0x8c, 0xde, 0, 0x58], [].as_slice()),
        ([0, 0, 64, 0, 0, 0x5c], NULL.as_slice()),
        ([0, 0, 64, 0, 0, 0x60], POLICY.as_slice()),
        ([0, 0, 64, 0, 0, 0x60], ADSPEC.as_slice()),
        ([0, 0, 64, 0, 0, 0x5c], bare(0x80).as_slice()),
        ([0, 0, 64, 0, 0, 0x5c], bare(0xc0).as_slice()),
    ] {
        assert!(rt; is_written(path_with(middle, object).bytes(), &PATH));
    }
    let wrong = path_with([0x4c, 0xdf, 64, 0, 0, 0x58], &[]);
    assert!(rt; fault(wrong.bytes()) == Some(Fault::Checksum));
}

#[test]
fn first_faults_of_an_object(rt: HostRuntime) {
    let short = joined(&[&PATH[..2], &[0, 0, 64, 0, 0, 0x57], &PATH[8..87]]);
    assert!(rt; fault(short.bytes()) == Some(Fault::Object(ObjErr::Length(52))));
    let unknown = path_with([0, 0, 64, 0, 0, 0x5c], &bare(0x40));
    assert!(rt; fault(unknown.bytes()) == Some(Fault::Object(ObjErr::Class(20, 64, 1))));
}

#[test]
fn first_faults_of_a_message(rt: HostRuntime) {
    let rows: [(u8, &[&[u8]], Fault); 21] = [
        (2, &[&SESSION, &HOP, &TIME, &FLOW], Fault::Order(40)),
        (1, &[&SESSION, &SESSION, &HOP, &TIME], Fault::Repeated(20)),
        (1, &[&SESSION, &HOP], Fault::Missing(5)),
        (8, &[&SESSION, &HOP], Fault::Kind),
        (1, &[&HOP, &TIME], Fault::Missing(1)),
        (1, &[&SESSION, &INTEGRITY], Fault::Order(20)),
        (1, &[&bare(0x80), &INTEGRITY], Fault::Order(12)),
        (
            1,
            &[&SESSION, &HOP, &TIME, &ADSPEC, &ADSPEC],
            Fault::Repeated(48),
        ),
        (
            1,
            &[&SESSION, &HOP, &TIME, &WHOLE_ADSPEC, &ADSPEC],
            Fault::Repeated(92),
        ),
        (
            1,
            &[&SESSION, &HOP, &TIME, &ADSPEC, &WHOLE_ADSPEC],
            Fault::Repeated(48),
        ),
        (2, &[&SESSION, &HOP, &WHOLE_ADSPEC], Fault::Order(32)),
        (1, &[&SESSION, &WF], Fault::Order(20)),
        (2, &[&SESSION, &HOP, &TIME, &WF, &POLICY], Fault::Order(48)),
        (2, &[&SESSION, &HOP, &TIME, &WF, &WF], Fault::Order(48)),
        (
            2,
            &[&SESSION, &HOP, &TIME, &WF, &FLOW, &FILTER],
            Fault::Order(84),
        ),
        (
            2,
            &[&SESSION, &HOP, &TIME, &FF, &FLOW, &FILTER, &FLOW],
            Fault::Missing(10),
        ),
        (
            2,
            &[&SESSION, &HOP, &TIME, &SE, &FLOW, &FILTER, &FILTER],
            Fault::Repeated(96),
        ),
        (
            4,
            &[&SESSION, &HOP, &ERROR, &FF, &FLOW, &FILTER, &OTHER_FILTER],
            Fault::Order(100),
        ),
        (6, &[&SESSION, &HOP, &FLOW], Fault::Order(32)),
        (6, &[&SESSION, &HOP, &FF, &FLOW], Fault::Missing(10)),
        (7, &[&SESSION, &ERROR, &SE, &FLOW], Fault::Missing(10)),
    ];
    for (i, (kind, objects, first)) in rows.iter().enumerate() {
        assert!(rt;
            fault(message(*kind, objects).bytes()) == Some(*first),
            "row {i}"
        );
    }
}

#[test]
fn a_whole_message_has_no_fault(rt: HostRuntime) {
    let whole = message(
        7,
        &[
            &SESSION,
            &ERROR,
            &CONFIRM,
            &SE,
            &FLOW,
            &FILTER,
            &OTHER_FILTER,
        ],
    );
    assert!(rt; fault(whole.bytes()).is_none());
}

#[test]
fn a_fault_has_a_kind_and_a_hint_behind_the_header(rt: HostRuntime) -> Result<(), Fail> {
    // A second SESSION is wrong; what stands behind it is told, up to the object without a length.
    let bytes = message(1, &[&SESSION, &SESSION, &HOP, &[0, 0, 5, 1]]);
    let error = decode(bytes.bytes()).err().ok_or("a fault")?;
    let session = error.hint.session.ok_or("a session")?;
    let hop = error.hint.hop.ok_or("a hop")?;
    assert!(rt; error.kind == Some(Kind::Path) && error.hint.sender.is_none());
    assert!(rt; session.port == 5004 && hop.addr.0 == 0x0a00_0101);
    Ok(())
}

#[test]
fn a_fault_of_the_header_has_none(rt: HostRuntime) -> Result<(), Fail> {
    let error = decode(&PATH[..20]).err().ok_or("a fault")?;
    assert!(rt; error.kind.is_none() && error.hint.session.is_none());
    Ok(())
}
