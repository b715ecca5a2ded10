//! The trace line of a delivery.
ghost use Rattle.std.specs.Prelude.{◌≡◌, ◌++◌, [], OnErr, OnOk, IsOk, cond, false, slice_get};
ghost use Rattle.network_replay.specs.Due.{told};
ghost use Rattle.network_flight.specs.Runs.{heard_text, why_text};
ghost use Rattle.network_replay.specs.Following.{IsArrival};
ghost use Rattle.network_replay.specs.Telling.{arrival_kind, told_line, text_of_kind};
ghost use Rattle.router_rules.specs.Inputs.{Arrival};

use message_codec::decode;
use router_rules::{Heard, Why};
use rsvp_base::{EndName, NoMemory};
use rsvp_messages::Kind;
use value_texts::{put, put_number};

/// The kind of message that bytes spell.
pub(crate) fn kind_of(bytes: &[u8]) -> Option<Kind>
    ensures { (a : Arrival) → IsArrival bytes.now a → result ≡ arrival_kind a }
{
    match decode(bytes) {
        Ok(message) => Some(message.kind()),
        Err(_) => None,
    }
}

/// Appends a trace line, as `END KIND OUTCOME`.
pub(crate) fn put_delivery(
    out: &mut Vec<u8>,
    name: &[u8],
    kind: Option<Kind>,
    heard: Heard,
) -> Result<(), NoMemory>
    ensures { OnOk result (out.new.items ≡ out.old.items ++ told_line name.now kind heard) }
{
    put(out, name)?;
    put(out, b" ")?;
    put_kind(out, kind)?;
    put(out, b" ")?;
    put_heard(out, heard)?;
    put(out, b"\n")
}

fn put_kind(out: &mut Vec<u8>, kind: Option<Kind>) -> Result<(), NoMemory>
    ensures { OnOk result (out.new.items ≡ out.old.items ++ text_of_kind kind) }
{
    match kind {
        Some(Kind::Path) => put(out, b"Path"),
        Some(Kind::Resv) => put(out, b"Resv"),
        Some(Kind::PathErr) => put(out, b"PathErr"),
        Some(Kind::ResvErr) => put(out, b"ResvErr"),
        Some(Kind::PathTear) => put(out, b"PathTear"),
        Some(Kind::ResvTear) => put(out, b"ResvTear"),
        Some(Kind::ResvConf) => put(out, b"ResvConf"),
        None => put(out, b"?"),
    }
}

fn put_heard(out: &mut Vec<u8>, heard: Heard) -> Result<(), NoMemory>
    ensures { OnOk result (out.new.items ≡ out.old.items ++ heard_text heard) }
{
    match heard {
        Heard::Taken => put(out, b"taken"),
        Heard::Dropped(why) => put_dropped(out, why),
        Heard::Answered(code, value) => put_answered(out, code, value),
    }
}

fn put_answered(out: &mut Vec<u8>, code: u8, value: u16) -> Result<(), NoMemory>
    ensures { OnOk result (out.new.items ≡ out.old.items ++ heard_text (Heard.Answered code value)) }
{
    put(out, b"answered ")?;
    put_number(out, u64::from(code))?;
    put(out, b"/")?;
    put_number(out, u64::from(value))
}

fn put_dropped(out: &mut Vec<u8>, why: Why) -> Result<(), NoMemory>
    ensures { OnOk result (out.new.items ≡ out.old.items ++ heard_text (Heard.Dropped why)) }
{
    put(out, b"dropped ")?;
    put_why(out, why)
}

fn put_why(out: &mut Vec<u8>, why: Why) -> Result<(), NoMemory>
    ensures { OnOk result (out.new.items ≡ out.old.items ++ why_text why) }
{
    match why {
        Why::Unspelt => put(out, b"Unspelt"),
        Why::NotMine => put(out, b"NotMine"),
        Why::NoSender => put(out, b"NoSender"),
        Why::NotInward => put(out, b"NotInward"),
        Why::NotOutward => put(out, b"NotOutward"),
        Why::NoState => put(out, b"NoState"),
        Why::Full => put(out, b"Full"),
    }
}

/// Appends the trace line of a datagram that came to an end, where the trace is on. `NoMemory`, only where it is on: nothing was
/// appended. The line is made in `line`.
#[tactic(auto, using(crate::proofs::Tellings::told_is))]
pub(crate) fn tell(
    line: &mut Vec<u8>,
    names: &[EndName],
    trace: bool,
    end: u16,
    bytes: &[u8],
    heard: Option<Heard>,
    out: &mut Vec<u8>,
) -> Result<(), NoMemory>
    ensures ok { (a : Arrival) → IsArrival bytes.now a → OnOk result (out.new.items ≡ out.old.items ++ cond trace (told (slice_get names.now end) a heard) []) }
    ensures err { OnErr result (out.new.items ≡ out.old.items) }
    ensures only { trace ≡ false → IsOk result }
{
    if !trace {
        return Ok(());
    }
    let Some(name) = names.get(end as usize) else {
        return Ok(());
    };
    let Some(heard) = heard else {
        return Ok(());
    };
    line.clear();
    put_delivery(line, name.bytes(), kind_of(bytes), heard)?;
    put_whole(out, line.as_slice())
}

/// Appends a text in one piece. `NoMemory`: nothing was appended.
pub(crate) fn put_whole(out: &mut Vec<u8>, text: &[u8]) -> Result<(), NoMemory>
    ensures ok { OnOk result (out.new.items ≡ out.old.items ++ text.now) }
    ensures err { OnErr result (out.new.items ≡ out.old.items) }
{
    out.extend_from_slice(text).map_err(|_| NoMemory)
}
