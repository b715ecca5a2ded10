//! Reading messages.
ghost use Rattle.std.specs.Prelude.{◌≡◌, ◌≤◌, length, Some, IfOk, IfErr, Ok, Err};
ghost use Rattle.rsvp_messages.specs.declared.fault.MsgErr.{MsgErr as AnError};
ghost use Rattle.rsvp_messages.specs.declared.message.Message.{Message as AMessage};
ghost use Rattle.rsvp_messages.specs.Proper.{IsProper};
ghost use Rattle.message_codec.specs.Hints.{IsHint};
ghost use Rattle.message_codec.specs.Spells.{kind_with, header_of, Spells, IsFirstFault};

use crate::checksum::is_right;
use crate::hinting::no_hint;
use crate::making::{path, path_err, path_tear, resv, resv_conf, resv_err, resv_tear, told};
use crate::reading::{HEADER, walk};
use crate::seen::Seen;
use byteorder::{BigEndian, ByteOrder};
use rsvp_messages::{Fault, Kind, Message, MsgErr};

// Where the fields of the common header stand (RFC 2205, 3.1.1).
const VERSION: usize = 0;

const KIND: usize = 1;

const LENGTH: usize = 6;

// The most bytes that a message may have.
const MOST_BYTES: usize = 4096;

/// The message that bytes spell (RFC 2205, 3.1). Else their first fault, with the kind of the message where the header told
/// one, and what could be read.
#[tactic(auto, using(crate::proofs::Told::err, crate::proofs::Told::proper))]
pub fn decode(bytes: &[u8]) -> Result<Message, MsgErr>
    ensures ok { IfOk result (Spells bytes.now) }
    ensures err { IfErr result (IsFirstFault bytes.now) }
    ensures only { (v : AMessage) → Spells bytes.now v → result ≡ Ok v }
    ensures first { (e : AnError) → IsFirstFault bytes.now e → result ≡ Err e }
    ensures proper { IfOk result IsProper }
{
    let kind = match header(bytes) {
        Ok(kind) => kind,
        Err(fault) => {
            return Err(MsgErr {
                fault,
                kind: None,
                hint: no_hint(),
            })
        }
    };
    let mut seen = Seen::new();
    match walk(kind, bytes, &mut seen) {
        Ok(()) => {}
        Err(fault) => return Err(told(kind, fault, bytes)),
    }
    // Each kind returns by itself, so that no message is moved to where all kinds meet.
    match kind {
        Kind::Path => return path(&mut seen, bytes),
        Kind::Resv => return resv(&mut seen, bytes),
        Kind::PathErr => return path_err(&seen, bytes),
        Kind::ResvErr => return resv_err(&mut seen, bytes),
        Kind::PathTear => return path_tear(&seen, bytes),
        Kind::ResvTear => return resv_tear(&mut seen, bytes),
        Kind::ResvConf => return resv_conf(&seen, bytes),
    }
}

// The kind that the header names, or the header's first fault.
#[tactic(auto, unfolding(crate::specs::Spells::header_of))]
#[inline(always)]
fn header(bytes: &[u8]) -> Result<Kind, Fault>
    ensures is { result ≡ header_of bytes.now }
    ensures long { IfOk result (λ _. 8 ≤ length bytes.now) }
    ensures short { IfOk result (λ _. length bytes.now ≤ 4096) }
{
    if bytes.len() > MOST_BYTES {
        return Err(Fault::TooLong);
    }
    if bytes.len() < HEADER {
        return Err(Fault::Short);
    }
    if bytes[VERSION] / 16 != 1 {
        return Err(Fault::Version);
    }
    if BigEndian::read_u16(&bytes[LENGTH..]) as usize != bytes.len() {
        return Err(Fault::Length);
    }
    if !is_right(bytes) {
        return Err(Fault::Checksum);
    }
    kind_with(bytes[KIND])
}

// The kind with a message type.
#[inline(always)]
fn kind_with(number: u8) -> Result<Kind, Fault>
    ensures { result ≡ kind_with number }
{
    match number {
        1 => Ok(Kind::Path),
        2 => Ok(Kind::Resv),
        3 => Ok(Kind::PathErr),
        4 => Ok(Kind::ResvErr),
        5 => Ok(Kind::PathTear),
        6 => Ok(Kind::ResvTear),
        7 => Ok(Kind::ResvConf),
        _ => Err(Fault::Kind),
    }
}
