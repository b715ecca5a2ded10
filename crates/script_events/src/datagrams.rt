//! The events of datagrams.
ghost use Rattle.std.specs.Prelude.{◌≡◌, ◌++◌, Err, IfOk, IfSome, None, Ok, OnOk, Some};
ghost use Rattle.message_show.specs.MessageText.{message_text};
ghost use Rattle.message_show.specs.RefusalText.{refusal_text};
ghost use Rattle.network_model.specs.Runs.{why_text};
ghost use Rattle.rsvp_messages.specs.Kinds.{kind_of};
ghost use Rattle.rsvp_messages.specs.declared.fault.MsgErr.{MsgErr as AnErr};
ghost use Rattle.rsvp_messages.specs.declared.message.Message.{Message as AMessage};
ghost use Rattle.script_events.specs.EventTexts.{became, but_last, copied_event, datagram_members, delivered_event, lost_event, went_members, word_of_kind};

use crate::json::{put_address, put_close, put_count, put_event, put_hex, put_word};
use message_show::{put_message, put_refusal};
use router_rules::{Heard, Why};
use rsvp_base::{Addr, NoMemory};
use rsvp_messages::{Kind, Message, MsgErr};
use value_texts::put;

/// Appends that a datagram is in flight: its number, the end by which it went out, where a node sent it, and that to which it goes.
pub fn put_went(
    out: &mut Vec<u8>,
    clock: u64,
    id: u64,
    from: Option<&[u8]>,
    end: &[u8],
) -> Result<(), NoMemory>
    ensures from_none { from.entry ≡ None → OnOk result (out.new.items ≡ out.old.items ++ went_members clock id None end.now) }
    ensures from_some { IfSome from.entry (λ name. OnOk result (out.new.items ≡ out.old.items ++ went_members clock id (Some name.now) end.now)) }
{
    match from {
        Some(from) => put_went_from(out, clock, id, from, end),
        None => put_went_alone(out, clock, id, end),
    }
}

// Appends that a node sent a datagram.
#[tactic(auto, unfolding(crate::specs::EventTexts::went_members))]
fn put_went_from(
    out: &mut Vec<u8>,
    clock: u64,
    id: u64,
    from: &[u8],
    end: &[u8],
) -> Result<(), NoMemory>
    ensures { OnOk result (out.new.items ≡ out.old.items ++ went_members clock id (Some from.now) end.now) }
{
    put_event(out, b"sent", clock)?;
    put_count(out, b"id", id)?;
    put_word(out, b"from", from)?;
    put_word(out, b"end", end)
}

// Appends that a datagram is in flight that no node sent.
#[tactic(auto, unfolding(crate::specs::EventTexts::went_members))]
fn put_went_alone(out: &mut Vec<u8>, clock: u64, id: u64, end: &[u8]) -> Result<(), NoMemory>
    ensures { OnOk result (out.new.items ≡ out.old.items ++ went_members clock id None end.now) }
{
    put_event(out, b"sent", clock)?;
    put_count(out, b"id", id)?;
    put(out, b",\"from\":null")?;
    put_word(out, b"end", end)
}

/// Appends where a datagram goes and what it is, which ends the event: its destination, the word of its kind, its bytes, and what
/// `show` writes of them.
#[tactic(auto, unfolding(crate::specs::EventTexts::datagram_members))]
pub fn put_datagram(
    out: &mut Vec<u8>,
    dst: Addr,
    kind: &[u8],
    bytes: &[u8],
    shown: &[u8],
) -> Result<(), NoMemory>
    ensures { OnOk result (out.new.items ≡ out.old.items ++ datagram_members dst kind.now bytes.now shown.now) }
{
    put_address(out, b"to", dst)?;
    put_word(out, b"kind", kind)?;
    put_hex(out, b"hex", bytes)?;
    put_word(out, b"words", but_last(shown))?;
    put_close(out)
}

/// Appends what `show` writes of bytes, and answers their kind, where they are a message.
pub fn put_shown(
    out: &mut Vec<u8>,
    read: &Result<Message, MsgErr>,
) -> Result<Option<Kind>, NoMemory>
    ensures message { (m : AMessage) → read.now ≡ Ok m → IfOk result (λ kind. (kind ≡ Some (kind_of m)) × (out.new.items ≡ out.old.items ++ message_text m)) }
    ensures fault { (e : AnErr) → read.now ≡ Err e → IfOk result (λ kind. (kind ≡ None) × (out.new.items ≡ out.old.items ++ refusal_text e.fault)) }
{
    match read {
        Ok(message) => {
            put_message(out, message)?;
            Ok(Some(message.kind()))
        }
        Err(error) => {
            put_refusal(out, error.fault)?;
            Ok(None)
        }
    }
}

/// The word of a kind of message; `?` for bytes that are none.
pub fn kind_word(kind: Option<Kind>) -> &'static [u8]
    ensures { result.now ≡ word_of_kind kind }
{
    match kind {
        Some(Kind::Path) => b"Path",
        Some(Kind::Resv) => b"Resv",
        Some(Kind::PathErr) => b"PathErr",
        Some(Kind::ResvErr) => b"ResvErr",
        Some(Kind::PathTear) => b"PathTear",
        Some(Kind::ResvTear) => b"ResvTear",
        Some(Kind::ResvConf) => b"ResvConf",
        None => b"?",
    }
}

// What `show` writes, without its line feed.
fn but_last(text: &[u8]) -> &[u8]
    ensures { result.now ≡ but_last text.now }
{
    if text.is_empty() {
        return text;
    }
    let (front, _) = text.split_at(text.len() - 1);
    front
}

/// Appends that a datagram was delivered to an end, and what its node made of it.
#[tactic(auto, unfolding(crate::specs::EventTexts::delivered_event))]
pub fn put_delivered(
    out: &mut Vec<u8>,
    clock: u64,
    id: u64,
    end: &[u8],
    heard: Heard,
) -> Result<(), NoMemory>
    ensures { OnOk result (out.new.items ≡ out.old.items ++ delivered_event clock id end.now heard) }
{
    put_event(out, b"delivered", clock)?;
    put_count(out, b"id", id)?;
    put_word(out, b"end", end)?;
    put_became(out, heard)?;
    put_close(out)
}

// Appends what became of a datagram.
#[tactic(auto, unfolding(crate::specs::EventTexts::became))]
fn put_became(out: &mut Vec<u8>, heard: Heard) -> Result<(), NoMemory>
    ensures { OnOk result (out.new.items ≡ out.old.items ++ became heard) }
{
    match heard {
        Heard::Taken => put_word(out, b"became", b"taken"),
        Heard::Dropped(why) => {
            put_word(out, b"became", b"dropped")?;
            put_word(out, b"why", why_word(why))
        }
        Heard::Answered(code, value) => {
            put_word(out, b"became", b"answered")?;
            put_count(out, b"code", u64::from(code))?;
            put_count(out, b"value", u64::from(value))
        }
    }
}

// The word of a reason.
fn why_word(why: Why) -> &'static [u8]
    ensures { result.now ≡ why_text why }
{
    match why {
        Why::Unspelt => b"Unspelt",
        Why::NotMine => b"NotMine",
        Why::NoSender => b"NoSender",
        Why::NotInward => b"NotInward",
        Why::NotOutward => b"NotOutward",
        Why::NoState => b"NoState",
        Why::Full => b"Full",
    }
}

/// Appends that a datagram was lost.
#[tactic(auto, unfolding(crate::specs::EventTexts::lost_event))]
pub fn put_lost(out: &mut Vec<u8>, clock: u64, id: u64) -> Result<(), NoMemory>
    ensures { OnOk result (out.new.items ≡ out.old.items ++ lost_event clock id) }
{
    put_event(out, b"lost", clock)?;
    put_count(out, b"id", id)?;
    put_close(out)
}

/// Appends that a datagram was put in flight once more.
#[tactic(auto, unfolding(crate::specs::EventTexts::copied_event))]
pub fn put_copied(out: &mut Vec<u8>, clock: u64, id: u64, of: u64) -> Result<(), NoMemory>
    ensures { OnOk result (out.new.items ≡ out.old.items ++ copied_event clock id of) }
{
    put_event(out, b"copied", clock)?;
    put_count(out, b"id", id)?;
    put_count(out, b"of", of)?;
    put_close(out)
}
