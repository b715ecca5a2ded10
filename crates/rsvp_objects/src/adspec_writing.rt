//! Writing ADSPECs.
ghost use Rattle.std.specs.Prelude.{◌≡◌, ◌≤◌, ◌<◌, ◌+◌, ◌*◌, ◌++◌, ◌∷◌, ◌↔◌, length, drop, OnOk, OnErr, IsErr};
ghost use Rattle.std.specs.List.{flat_map};
ghost use Rattle.rsvp_objects.specs.Fields.{half, word};
ghost use Rattle.rsvp_objects.specs.AdspecSpelling.{adspec_class, load_word, load_words, parameter, general_bytes, behind, object_bytes};

use crate::adspec::Adspec;
use crate::packet::Packet;
use crate::rate_word::word_of_rate;
use crate::words::BREAK_BIT;
use crate::{part_places, part_values};
use byteorder::{BigEndian, ByteOrder};
use rsvp_base::Full;

// The bytes of the head and the general part, and the most that a packet has.
const HEAD_SIZE: usize = 44;

const MOST_BYTES: usize = 4096;

/// Puts the object of an ADSPEC at the end of a packet: the general part, controlled load where it has it, the others.
/// `Full` exactly where it does not fit; nothing changes then.
#[tactic(auto, using(crate::proofs::Bytes::body_size))]
pub fn write_adspec(adspec: &Adspec, packet: &mut Packet) -> Result<(), Full>
    ensures ok { OnOk result (packet.new ≡ packet.old ++ object_bytes adspec.now) }
    ensures full { IsErr result ↔ (4096 < length packet.old + length (object_bytes adspec.now)) }
    ensures err { OnErr result (packet.new ≡ packet.old) }
{
    let words = count(adspec);
    if packet.bytes().len() + HEAD_SIZE + part_places::WORD_SIZE * words as usize > MOST_BYTES {
        return Err(Full);
    }
    put_text(adspec, words, packet);
    Ok(())
}

// Puts the bytes of the object, which has so many words behind the general part, where there is room.
fn put_text(adspec: &Adspec, words: u16, packet: &mut Packet)
    requires number { words ≡ length (behind adspec.now) }
    requires few { words ≤ 25 }
    requires room { length packet.old + 44 + 4 * words ≤ 4096 }
    ensures { packet.new ≡ packet.old ++ object_bytes adspec.now }
{
    let _ = packet.append(&head(adspec, words));
    put_load(adspec.load, packet);
    put_words(adspec.others.words(), packet);
}

// How many words stand behind the general part.
fn count(adspec: &Adspec) -> u16
    ensures is { result ≡ length (behind adspec.now) }
    ensures few { result ≤ 25 }
{
    (usize::from(adspec.load.is_some()) + adspec.others.len()) as u16
}

// The head of the object and the general part, with so many words behind it.
fn head(adspec: &Adspec, words: u16) -> [u8; HEAD_SIZE]
    requires number { words ≡ length (behind adspec.now) }
    requires few { words ≤ 25 }
    ensures { result ≡ half (44 + 4 * words) ++ adspec_class ∷ 2 ∷ general_bytes adspec.now }
{
    let mut text = [0; HEAD_SIZE];
    BigEndian::write_u16(&mut text, 44 + 4 * words);
    text[part_places::object::CLASS] = part_values::ADSPEC;
    text[part_places::object::CTYPE] = part_values::INTSERV;
    let body = &mut text[part_places::object::CONTENTS..];
    BigEndian::write_u16(
        &mut body[part_places::WORDS_BEHIND_VERSION..],
        part_values::BEHIND_VERSION + words,
    );
    body[part_places::SERVICE] = part_values::service::GENERAL;
    body[part_places::BREAK] = if adspec.broken { part_values::BREAK } else { 0 };
    BigEndian::write_u16(
        &mut body[part_places::WORDS_BEHIND_SERVICE..],
        part_values::service::BEHIND_GENERAL,
    );
    put_parameter(
        &mut body[part_places::HOPS..],
        part_values::parameter::HOPS,
        adspec.hops,
    );
    put_parameter(
        &mut body[part_places::RATE..],
        part_values::parameter::RATE,
        word_of_rate(adspec.rate),
    );
    put_parameter(
        &mut body[part_places::LATENCY..],
        part_values::parameter::LATENCY,
        adspec.latency,
    );
    put_parameter(
        &mut body[part_places::MTU..],
        part_values::parameter::MTU,
        adspec.mtu,
    );
    text
}

// Writes a parameter of one word over the first eight bytes.
fn put_parameter(text: &mut [u8], number: u8, value: u32)
    requires { 8 ≤ length text.old }
    ensures { text.new ≡ parameter number value ++ drop 8 text.old }
{
    text[0] = number;
    text[1] = 0;
    BigEndian::write_u16(
        &mut text[part_places::WORDS_BEHIND_PARAMETER..],
        part_values::parameter::WORDS,
    );
    BigEndian::write_u32(&mut text[part_places::VALUE..], value);
}

// The bytes of the controlled-load fragment where there is one, and where there is room.
fn put_load(load: Option<bool>, packet: &mut Packet)
    requires { length packet.old + 4 * length (load_words load) ≤ 4096 }
    ensures { packet.new ≡ packet.old ++ flat_map word (load_words load) }
{
    match load {
        Some(broken) => put_word(load_word(broken), packet),
        None => {}
    }
}

// The first word of a controlled-load fragment, which has no others.
fn load_word(broken: bool) -> u32
    ensures { result ≡ load_word broken }
{
    if broken {
        part_values::LOAD_WORD + BREAK_BIT
    } else {
        part_values::LOAD_WORD
    }
}

// The bytes of words, where there is room.
fn put_words(words: &[u32], packet: &mut Packet)
    requires { length packet.old + 4 * length words.now ≤ 4096 }
    ensures { packet.new ≡ packet.old ++ flat_map word words.now }
{
    for word in words {
        put_word(*word, packet);
    }
}

// The bytes of a word, where there is room.
fn put_word(number: u32, packet: &mut Packet)
    requires { length packet.old ≤ 4092 }
    ensures { packet.new ≡ packet.old ++ word number }
{
    let mut bytes = [0; part_places::WORD_SIZE];
    BigEndian::write_u32(&mut bytes, number);
    let _ = packet.append(&bytes);
}
