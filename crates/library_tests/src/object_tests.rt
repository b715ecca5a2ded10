//! Worked rate words and objects.
use rsvp_base::{Addr, ErrSpec, Flow, Full, Hop, Peak, Rate, Sender, Senders, Session, StyleKind};
use rsvp_objects::{
    ObjErr, Object, Packet, RateErr, next_object, put_object, rate_of_word, word_of_rate,
};
use std::test::Fail;

#[test]
fn rate_words_of_the_table(rt: HostRuntime) -> Result<(), Fail> {
    for (word, number) in [
        (0x447a_0000, 1000),
        (0x0000_0000, 0),
        (0x4b80_0001, 16_777_218),
        (0x567f_ffff, 70_368_739_983_360),
    ] {
        let peak = Peak::Finite(Rate::of(number).ok_or("rate")?);
        assert!(rt;
            rate_of_word(word) == Ok(peak) && word_of_rate(peak) == word,
            "at {number}"
        );
    }
    Ok(())
}

#[test]
fn the_word_of_no_limit_is_infinity(rt: HostRuntime) {
    assert!(rt; rate_of_word(0x7f80_0000) == Ok(Peak::Infinite));
    assert!(rt; word_of_rate(Peak::Infinite) == 0x7f80_0000);
}

#[test]
fn words_that_are_no_rate_have_their_fault(rt: HostRuntime) {
    for (word, fault) in [
        (0x5680_0000, RateErr::Large),
        (0x3f00_0000, RateErr::Fraction),
        (0x0000_0001, RateErr::Fraction),
        (0x7fc0_0000, RateErr::NotANumber),
        (0xbf80_0000, RateErr::Signed),
        (0x8000_0000, RateErr::Signed),
    ] {
        assert!(rt; rate_of_word(word) == Err(fault), "at {word}");
    }
    assert!(rt; Rate::of(16_777_217).is_none());
}

// The flow 1000/2000/inf/64/1500.
fn flow() -> Option<Flow> {
    Flow::new(Rate::of(1000)?, Rate::of(2000)?, Peak::Infinite, 64, 1500)
}

const FLOWSPEC: [u8; 36] = [
    0x00, 0x24, 0x09, 0x02, 0x00, 0x00, 0x00, 0x07, 0x05, 0x00, 0x00, 0x06, 0x7f, 0x00, 0x00, 0x05,
    0x44, 0x7a, 0x00, 0x00, 0x44, 0xfa, 0x00, 0x00, 0x7f, 0x80, 0x00, 0x00, 0x00, 0x00, 0x00, 0x40,
    0x00, 0x00, 0x05, 0xdc,
];

// The FLOWSPEC with the bytes from a place on replaced.
fn flowspec_with(place: usize, bytes: &[u8]) -> [u8; 36] {
    let mut text = FLOWSPEC;
    for (old, new) in text.iter_mut().skip(place).zip(bytes) {
        *old = *new;
    }
    text
}

// A SCOPE of 17 addresses, of which those from a place on are one.
fn scope_of_17(same_from: u8) -> [u8; 72] {
    let mut text = [0; 72];
    text[1] = 72;
    text[2] = 7;
    text[3] = 1;
    for (i, byte) in text.iter_mut().skip(7).step_by(4).enumerate() {
        *byte = same_from.min(i as u8);
    }
    text
}

// The fault of the first object, if it has one. There is none where there are no bytes, or more than a place can count.
fn fault_of(bytes: &[u8]) -> Option<ObjErr> {
    if bytes.is_empty() || bytes.len() > 65535 {
        return None;
    }
    match next_object(bytes, 0) {
        Ok(_) => None,
        Err(fault) => Some(fault),
    }
}

#[test]
fn each_fault_is_the_first(rt: HostRuntime) {
    for (bytes, fault) in [
        ([0x00, 0x04, 0x40, 0x01].as_slice(), ObjErr::Class(0, 64, 1)),
        (
            &[0x00, 0x08, 0x05, 0x02, 0x00, 0x00, 0x75, 0x30],
            ObjErr::CType(0, 5, 2),
        ),
        (&[0x00, 0x04, 0x01], ObjErr::Short(0)),
        (&[0x00, 0x06, 0x80, 0x01, 0x00, 0x00], ObjErr::Length(0)),
        (&[0x00, 0x00, 0x80, 0x01], ObjErr::Length(0)),
        (&[0x00, 0x08, 0x80, 0x01], ObjErr::Length(0)),
        (&[0x00, 0x04, 0x05, 0x01], ObjErr::Contents(0)),
        (
            &[0x00, 0x08, 0x08, 0x01, 0x00, 0x00, 0x00, 0x13],
            ObjErr::Style(0),
        ),
        (
            &[0x00, 0x0c, 0x09, 0x02, 0, 0, 0, 0, 0x02, 0, 0, 0],
            ObjErr::Service(0),
        ),
        (&[0x00, 0x08, 0x09, 0x02, 0x02, 0, 0, 0], ObjErr::Flow(0)),
        (&flowspec_with(8, &[0x01]), ObjErr::Service(0)),
        (&flowspec_with(4, &[0x10]), ObjErr::Flow(0)),
        (
            &flowspec_with(16, &[0x7f, 0x80, 0x00, 0x00]),
            ObjErr::Flow(0),
        ),
        (&flowspec_with(2, &[0x0c]), ObjErr::Tspec(0)),
        (&scope_of_17(16), ObjErr::Crowd(0)),
    ] {
        assert!(rt; fault_of(bytes) == Some(fault), "at {fault:?}");
    }
}

#[test]
fn unknown_classes_from_128_on_are_skipped(rt: HostRuntime) {
    let read = next_object(&[0x00, 0x04, 0x80, 0x01], 0);
    assert!(rt; matches!(read, Ok((Object::Skipped { class: 128 }, 4))));
}

#[test]
fn sixteen_addresses_of_seventeen_are_a_scope(rt: HostRuntime) {
    let read = next_object(&scope_of_17(15), 0);
    assert!(rt; matches!(read, Ok((Object::Scope(senders), 72)) if senders.len() == 16));
}

// The answer to one more object of 4 bytes.
fn put_four(packet: &mut Packet) -> Result<(), Full> {
    put_object(&Object::Skipped { class: 0 }, packet)
}

#[test]
fn a_packet_holds_4096_bytes(rt: HostRuntime) {
    let mut packet = Packet::new();
    for _ in 0..1024 {
        assert!(rt; put_four(&mut packet) == Ok(()));
    }
    assert!(rt; put_four(&mut packet) == Err(Full));
    assert!(rt; packet.bytes().len() == 4096);
    assert!(rt; packet.copy().bytes() == packet.bytes());
}

#[test]
fn a_packet_is_of_at_most_4096_bytes(rt: HostRuntime) {
    assert!(rt; Packet::of(&[0; 4096]).is_ok());
    assert!(rt; Packet::of(&[0; 4097]).is_err());
}

// Puts an object into an empty packet, and reads it and puts it into another.
fn put_and_read(object: &Object) -> Result<(Packet, Packet), Fail> {
    let mut packet = Packet::new();
    put_object(&object.copy(), &mut packet).or(Err("put"))?;
    let text = packet.bytes();
    if text.is_empty() {
        return Err("nothing was put".into());
    }
    let (again, end) = next_object(text, 0).or(Err("read"))?;
    if end != text.len() {
        return Err("end".into());
    }
    let mut second = Packet::default();
    put_object(&again, &mut second).or(Err("put again"))?;
    Ok((packet, second))
}

#[test]
fn each_object_is_its_figure_and_is_read_again(rt: HostRuntime) -> Result<(), Fail> {
    let flow = flow().ok_or("flow")?;
    let sender = Sender {
        addr: Addr(0x0a00_0101),
        port: 5004,
    };
    let mut scope = Senders::new();
    for addr in [0x0a00_0102, 0x0a00_0101] {
        let _ = scope.insert(Sender {
            addr: Addr(addr),
            port: 0,
        });
    }
    let session = Session {
        group: Addr(0xef01_0101),
        proto: 17,
        port: 5004,
    };
    let error = ErrSpec {
        node: Addr(0x0a00_0202),
        in_place: true,
        not_guilty: true,
        code: 1,
        value: 2,
    };
    let hop = Hop {
        addr: Addr(0x0a00_0101),
        handle: 0x0102_0304,
    };
    let mut tspec = flowspec_with(2, &[0x0c]);
    tspec[8] = 0x01;
    for (object, text) in &[
        (
            Object::Session {
                session,
                police: true,
            },
            [
                0, 0x0c, 0x01, 0x01, 0xef, 0x01, 0x01, 0x01, 0x11, 0x01, 0x13, 0x8c,
            ]
            .as_slice(),
        ),
        (
            Object::HopOf(hop),
            &[
                0, 0x0c, 0x03, 0x01, 0x0a, 0x00, 0x01, 0x01, 0x01, 0x02, 0x03, 0x04,
            ],
        ),
        (
            Object::Time(30_000),
            &[0, 0x08, 0x05, 0x01, 0x00, 0x00, 0x75, 0x30],
        ),
        (
            Object::Error(error),
            &[
                0, 0x0c, 0x06, 0x01, 0x0a, 0x00, 0x02, 0x02, 0x03, 0x01, 0x00, 0x02,
            ],
        ),
        (
            Object::Scope(scope),
            &[
                0, 0x0c, 0x07, 0x01, 0x0a, 0x00, 0x01, 0x01, 0x0a, 0x00, 0x01, 0x02,
            ],
        ),
        (
            Object::StyleOf(StyleKind::Wild),
            &[0, 0x08, 0x08, 0x01, 0, 0, 0, 0x11],
        ),
        (
            Object::StyleOf(StyleKind::Fixed),
            &[0, 0x08, 0x08, 0x01, 0, 0, 0, 0x0a],
        ),
        (
            Object::StyleOf(StyleKind::Shared),
            &[0, 0x08, 0x08, 0x01, 0, 0, 0, 0x12],
        ),
        (Object::FlowOf(flow), &FLOWSPEC),
        (
            Object::Filter(sender),
            &[
                0, 0x0c, 0x0a, 0x01, 0x0a, 0x00, 0x01, 0x01, 0x00, 0x00, 0x13, 0x8c,
            ],
        ),
        (
            Object::Template(sender),
            &[
                0, 0x0c, 0x0b, 0x01, 0x0a, 0x00, 0x01, 0x01, 0x00, 0x00, 0x13, 0x8c,
            ],
        ),
        (Object::Tspec(flow), &tspec),
        (
            Object::Confirm(Addr(0x0a00_0202)),
            &[0, 0x08, 0x0f, 0x01, 0x0a, 0x00, 0x02, 0x02],
        ),
        (Object::Skipped { class: 13 }, &[0, 0x04, 0x0d, 0x00]),
    ] {
        let (packet, again) = put_and_read(object)?;
        assert!(rt; packet.bytes() == *text && again.bytes() == *text);
    }
    Ok(())
}
