//! Objects of messages, and messages put together from them.
use rsvp_objects::Packet;

pub const SESSION: [u8; 12] = [0, 12, 1, 1, 239, 1, 1, 1, 17, 0, 0x13, 0x8c];

pub const HOP: [u8; 12] = [0, 12, 3, 1, 10, 0, 1, 1, 0, 0, 0, 0];

pub const TIME: [u8; 8] = [0, 8, 5, 1, 0, 0, 0x75, 0x30];

pub const ERROR: [u8; 12] = [0, 12, 6, 1, 10, 0, 9, 9, 0, 0, 0, 0];

pub const WF: [u8; 8] = [0, 8, 8, 1, 0, 0, 0, 0x11];

pub const FF: [u8; 8] = [0, 8, 8, 1, 0, 0, 0, 0x0a];

pub const SE: [u8; 8] = [0, 8, 8, 1, 0, 0, 0, 0x12];

pub const FLOW: [u8; 36] = [
    0x00, 0x24, 0x09, 0x02, 0x00, 0x00, 0x00, 0x07, 0x05, 0x00, 0x00, 0x06, 0x7f, 0x00, 0x00, 0x05,
    0x44, 0x7a, 0x00, 0x00, 0x44, 0xfa, 0x00, 0x00, 0x7f, 0x80, 0x00, 0x00, 0x00, 0x00, 0x00, 0x40,
    0x00, 0x00, 0x05, 0xdc,
];

pub const FILTER: [u8; 12] = [0, 12, 10, 1, 10, 0, 1, 1, 0, 0, 0x13, 0x8c];

pub const OTHER_FILTER: [u8; 12] = [0, 12, 10, 1, 10, 0, 3, 1, 0, 0, 0x13, 0x8c];

pub const CONFIRM: [u8; 8] = [0, 8, 15, 1, 10, 0, 9, 9];

pub const POLICY: [u8; 8] = [0, 8, 14, 1, 0, 0, 0, 0];

/// Of another form than that of RFC 2210, 3.3.
pub const ADSPEC: [u8; 8] = [0, 8, 13, 2, 0, 0, 0, 1];

/// 1 hop, 10,000 bytes per second, 100 microseconds, an MTU of 1,500 bytes; controlled load, and a fragment of service 2.
pub const WHOLE_ADSPEC: [u8; 52] = [
    0x00, 0x34, 0x0d, 0x02, 0x00, 0x00, 0x00, 0x0b, 0x01, 0x00, 0x00, 0x08, 0x04, 0x00, 0x00, 0x01,
    0x00, 0x00, 0x00, 0x01, 0x06, 0x00, 0x00, 0x01, 0x46, 0x1c, 0x40, 0x00, 0x08, 0x00, 0x00, 0x01,
    0x00, 0x00, 0x00, 0x64, 0x0a, 0x00, 0x00, 0x01, 0x00, 0x00, 0x05, 0xdc, 0x05, 0x00, 0x00, 0x00,
    0x02, 0x00, 0x00, 0x00,
];

pub const INTEGRITY: [u8; 4] = [0, 4, 4, 1];

pub const NULL: [u8; 4] = [0, 4, 0, 0];

/// An object without contents of this class and C-Type 1.
pub fn bare(class: u8) -> [u8; 4] {
    [0, 4, class, 1]
}

/// These bytes one after the other.
pub fn joined(parts: &[&[u8]]) -> Packet {
    let mut packet = Packet::new();
    for part in parts {
        let _ = packet.append(part);
    }
    packet
}

/// The message of a type with these objects, without a checksum.
pub fn message(kind: u8, objects: &[&[u8]]) -> Packet {
    let body = joined(objects);
    let text = body.bytes();
    let size = (8 + text.len() as u16).to_be_bytes();
    joined(&[&[0x10, kind, 0, 0, 64, 0, size[0], size[1]], text])
}
