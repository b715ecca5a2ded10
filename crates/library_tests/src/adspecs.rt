//! An ADSPEC byte by byte, and contents that are none.
use rsvp_base::{Peak, Rate};
use rsvp_objects::{Adspec, Packet, read_adspec, write_adspec};
use std::test::Fail;

// 1 hop, 10,000 bytes per second, 100 microseconds, an MTU of 1,500 bytes; controlled load, and an empty fragment of service 2.
const OBJECT: [u8; 52] = [
    0, 52, 13, 2, 0, 0, 0, 11, 1, 0, 0, 8, 4, 0, 0, 1, 0, 0, 0, 1, 6, 0, 0, 1, 0x46, 0x1c, 0x40, 0,
    8, 0, 0, 1, 0, 0, 0, 100, 10, 0, 0, 1, 0, 0, 0x05, 0xdc, 5, 0, 0, 0, 2, 0, 0, 0,
];

// The same contents with one byte changed.
fn changed(at: usize, byte: u8) -> Option<Adspec> {
    let mut bytes = OBJECT;
    if let Some(place) = bytes.get_mut(at) {
        *place = byte;
    }
    read_adspec(&bytes[4..])
}

#[test]
fn the_object_is_read(rt: HostRuntime) -> Result<(), Fail> {
    let adspec = read_adspec(&OBJECT[4..]).ok_or("an ADSPEC")?;
    assert!(rt; !adspec.broken);
    assert_eq!(rt; adspec.hops, 1);
    assert_eq!(rt;
        adspec.rate,
        Peak::Finite(Rate::of(10_000).ok_or("a rate")?)
    );
    assert_eq!(rt; adspec.latency, 100);
    assert_eq!(rt; adspec.mtu, 1500);
    assert_eq!(rt; adspec.load, Some(false));
    assert_eq!(rt; adspec.others.len(), 1);
    assert_eq!(rt; adspec.others.at(0), Some(0x0200_0000));
    assert_eq!(rt; adspec.others.at(1), None);
    assert_eq!(rt; adspec.others.broken().at(0), Some(0x0280_0000));
    Ok(())
}

#[test]
fn it_is_written_as_it_was(rt: HostRuntime) -> Result<(), Fail> {
    let adspec = read_adspec(&OBJECT[4..]).ok_or("an ADSPEC")?;
    let mut packet = Packet::new();
    write_adspec(&adspec, &mut packet).map_err(|_| "room")?;
    assert_eq!(rt; packet.bytes(), OBJECT.as_slice());
    Ok(())
}

#[test]
fn what_is_cut_is_none(rt: HostRuntime) {
    let contents = &OBJECT[4..];
    for size in 0..contents.len() {
        assert!(rt; read_adspec(&contents[..size]).is_none());
    }
}

// Each byte that is changed so that the contents are not of the form.
#[test]
fn what_is_not_of_the_form_is_none(rt: HostRuntime) {
    let changes = [
        // version 1; a number of words that is another; a length of the general part, and another service there
        (4, 0x10),
        (7, 12),
        (11, 7),
        (8, 2),
        // another parameter, and a parameter of two words
        (12, 5),
        (23, 2),
        // a bandwidth that is no rate: below 0, and not whole
        (24, 0xc6),
        (27, 1),
        // controlled load with a word; a fragment of one word that is not there; both of controlled load; the general service
        (47, 1),
        (51, 1),
        (48, 5),
        (48, 1),
    ];
    for (at, byte) in changes {
        assert!(rt; changed(at, byte).is_none());
    }
}

// Bits that the figure does not name are not looked at, and written as 0.
#[test]
fn bits_that_are_not_named_are_not_looked_at(rt: HostRuntime) -> Result<(), Fail> {
    for at in [4, 5, 9, 13, 21, 29, 37, 45] {
        let adspec = changed(at, 0x01).ok_or("an ADSPEC")?;
        let mut packet = Packet::new();
        write_adspec(&adspec, &mut packet).map_err(|_| "room")?;
        assert_eq!(rt; packet.bytes(), OBJECT.as_slice());
    }
    Ok(())
}
