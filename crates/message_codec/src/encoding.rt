//! Messages as bytes.
ghost use Rattle.std.specs.Prelude.{◌≡◌, ◌≤◌, ◌+◌, ◌++◌, length, drop, get_or, ℕ, ◌<◌};
ghost use Rattle.rsvp_messages.specs.Kinds.{kind_of};
ghost use Rattle.rsvp_messages.specs.Proper.{IsProper};
ghost use Rattle.message_codec.specs.Spells.{Spells};
ghost use Rattle.message_codec.specs.Sum.{ones_sum};
ghost use Rattle.message_codec.specs.Encoding.{kind_number, header, checksum, sealed, body_of, encoding};

use crate::checksum::ones_sum;
use crate::fields::know_fields;
use crate::lengths::know_lengths;
use crate::messages::put_objects;
use rsvp_messages::{Kind, Message};
use rsvp_objects::Packet;

/// The bytes of a message (RFC 2205, 3.1), at most 1,024: its objects in one order, behind a header with the checksum.
/// They spell each message that is proper, so that `decode` gives it back.
pub fn encode(message: &Message) -> Packet
    ensures text { result ≡ encoding message.now }
    ensures short { length result ≤ 1024 }
    ensures right { ones_sum result ≡ 65535 }
    ensures again { IsProper message.now → Spells result message.now }
{
    let mut packet = Packet::new();
    encode_into(message, &mut packet);
    packet
}

/// Writes the bytes of a message in place of those of a packet.
#[tactic(auto, unfolding(crate::specs::Encoding::encoding))]
pub fn encode_into(message: &Message, packet: &mut Packet)
    ensures text { packet.new ≡ encoding message.now }
    ensures short { length packet.new ≤ 1024 }
    ensures right { ones_sum packet.new ≡ 65535 }
    ensures again { IsProper message.now → Spells packet.new message.now }
{
    know_lengths(message);
    know_fields(message);
    let kind = message.kind();
    packet.clear();
    let _ = packet.append(&header(kind, 0, 0));
    put_body(message, packet);
    seal(kind, packet);
}

// Puts the objects of a message behind a header.
fn put_body(message: &Message, packet: &mut Packet)
    requires { length packet.old ≡ 8 }
    ensures text { packet.new ≡ packet.old ++ body_of message.now }
    ensures short { length (body_of message.now) ≤ 1016 }
{
    know_lengths(message);
    match put_objects(message, packet) {
        Ok(()) => {}
        Err(_) => unreachable!(),
    }
}

// Writes the length and the checksum into a header with zeros there.
#[tactic(auto, unfolding(crate::specs::Encoding::sealed))]
fn seal(kind: Kind, packet: &mut Packet)
    requires head { packet.old ≡ header kind 0 0 ++ drop 8 packet.old }
    requires short { length packet.old ≤ 1024 }
    ensures text { packet.new ≡ sealed kind (drop 8 packet.old) }
    ensures long { length (sealed kind (drop 8 packet.old)) ≡ length packet.old }
    ensures right { ones_sum (sealed kind (drop 8 packet.old)) ≡ 65535 }
    ensures bytes { (i : ℕ) → get_or packet.new i 0 < 256 }
{
    let text = packet.bytes();
    know_bytes(text);
    let size = (text.len() as u16).to_be_bytes();
    packet.set(6, size[0]);
    packet.set(7, size[1]);
    let sum = (65535 - ones_sum(packet.bytes()) as u16).to_be_bytes();
    packet.set(2, sum[0]);
    packet.set(3, sum[1]);
    know_bytes(packet.bytes());
}

// Each is a byte.
fn know_bytes(bytes: &[u8])
    ensures { (i : ℕ) → get_or bytes.now i 0 < 256 }
{
    let _ = bytes;
}

// The common header (RFC 2205, 3.1.1): version 1 without flags, type, checksum, Send_TTL 64, length.
fn header(kind: Kind, sum: u16, size: u16) -> [u8; 8]
    ensures { result ≡ header kind sum size }
{
    let s = sum.to_be_bytes();
    let l = size.to_be_bytes();
    [16, number(kind), s[0], s[1], 64, 0, l[0], l[1]]
}

fn number(kind: Kind) -> u8
    ensures { result ≡ kind_number kind }
{
    match kind {
        Kind::Path => 1,
        Kind::Resv => 2,
        Kind::PathErr => 3,
        Kind::ResvErr => 4,
        Kind::PathTear => 5,
        Kind::ResvTear => 6,
        Kind::ResvConf => 7,
    }
}
