//! The lines of messages.
ghost use Rattle.std.specs.Prelude.{◌≡◌, ◌≤◌, ◌<◌, ◌++◌, codes, length, OnOk, OnErr, vec_capacity};
ghost use Rattle.std.specs.Io.{StartsWith};
ghost use Rattle.message_show.specs.PartTexts.{confirm_text, hop_text, period_text, where_set, where_there};
ghost use Rattle.value_texts.specs.Texts.{session_text};
ghost use Rattle.message_show.specs.MessageText.{message_text, only_sender_text, path_err_text, path_sender_text, path_tear_text, path_text, resv_conf_text, resv_err_text, resv_tear_text};
ghost use Rattle.message_show.specs.MessageText.{adspec_text, resv_text, words_text};

use crate::parts::{
    put_ask, put_blame, put_confirm, put_error, put_hop, put_offer, put_period, put_tear, put_where,
};
use rsvp_base::{Addr, Flow, NoMemory, Sender};
use rsvp_messages::{
    Message, PathErrMsg, PathMsg, PathTearMsg, ResvConfMsg, ResvErrMsg, ResvMsg, ResvTearMsg,
};
use rsvp_objects::Adspec;
use value_texts::{put, put_adspec_words, put_sender, put_session};

#[tactic(auto, unfolding(crate::specs::MessageText::path_sender_text))]
fn put_path_sender(out: &mut Vec<u8>, sender: Option<(Sender, Flow)>) -> Result<(), NoMemory>
    ensures text { OnOk result (out.new.items ≡ out.old.items ++ where_there path_sender_text sender) }
    ensures front { OnErr result (StartsWith out.new.items out.old.items) }
    ensures full { OnErr result (vec_capacity out.old < length (out.old.items ++ where_there path_sender_text sender)) }
    ensures kept { vec_capacity out.old ≤ vec_capacity out.new }
{
    let Some(offer) = sender else {
        return Ok(());
    };
    put(out, b" sender")?;
    put_offer(out, offer)
}

#[tactic(auto, unfolding(crate::specs::MessageText::only_sender_text))]
fn put_only_sender(out: &mut Vec<u8>, sender: Option<Sender>) -> Result<(), NoMemory>
    ensures text { OnOk result (out.new.items ≡ out.old.items ++ where_there only_sender_text sender) }
    ensures front { OnErr result (StartsWith out.new.items out.old.items) }
    ensures full { OnErr result (vec_capacity out.old < length (out.old.items ++ where_there only_sender_text sender)) }
    ensures kept { vec_capacity out.old ≤ vec_capacity out.new }
{
    let Some(sender) = sender else {
        return Ok(());
    };
    put(out, b" sender ")?;
    put_sender(out, sender)
}

// Appends an ADSPEC: that it is one, and its words.
#[tactic(auto, unfolding(crate::specs::MessageText::adspec_text))]
fn put_adspec(out: &mut Vec<u8>, adspec: &Adspec) -> Result<(), NoMemory>
    ensures text { OnOk result (out.new.items ≡ out.old.items ++ adspec_text adspec.now) }
    ensures front { OnErr result (StartsWith out.new.items out.old.items) }
    ensures full { OnErr result (vec_capacity out.old < length (out.old.items ++ adspec_text adspec.now)) }
    ensures kept { vec_capacity out.old ≤ vec_capacity out.new }
{
    put(out, b" adspec")?;
    put_adspec_words(out, adspec)
}

fn put_advert(out: &mut Vec<u8>, adspec: &Option<Adspec>) -> Result<(), NoMemory>
    ensures text { OnOk result (out.new.items ≡ out.old.items ++ where_there adspec_text adspec.now) }
    ensures front { OnErr result (StartsWith out.new.items out.old.items) }
    ensures full { OnErr result (vec_capacity out.old < length (out.old.items ++ where_there adspec_text adspec.now)) }
    ensures kept { vec_capacity out.old ≤ vec_capacity out.new }
{
    match adspec {
        Some(adspec) => put_adspec(out, adspec),
        None => Ok(()),
    }
}

fn put_wish(out: &mut Vec<u8>, confirm: Option<Addr>) -> Result<(), NoMemory>
    ensures text { OnOk result (out.new.items ≡ out.old.items ++ where_there confirm_text confirm) }
    ensures front { OnErr result (StartsWith out.new.items out.old.items) }
    ensures full { OnErr result (vec_capacity out.old < length (out.old.items ++ where_there confirm_text confirm)) }
    ensures kept { vec_capacity out.old ≤ vec_capacity out.new }
{
    match confirm {
        Some(addr) => put_confirm(out, addr),
        None => Ok(()),
    }
}

// What a Path message says before what it offers.
fn put_path_head(out: &mut Vec<u8>, m: &PathMsg) -> Result<(), NoMemory>
    ensures text { OnOk result (out.new.items ≡ out.old.items
        ++ (codes "Path " ++ session_text m.now.session ++ where_set m.now.police (codes " police") ++ hop_text m.now.hop
        ++ period_text m.now.period)) }
    ensures front { OnErr result (StartsWith out.new.items out.old.items) }
    ensures full { OnErr result (vec_capacity out.old < length (out.old.items
        ++ (codes "Path " ++ session_text m.now.session ++ where_set m.now.police (codes " police") ++ hop_text m.now.hop
        ++ period_text m.now.period))) }
    ensures kept { vec_capacity out.old ≤ vec_capacity out.new }
{
    put(out, b"Path ")?;
    put_session(out, m.session)?;
    put_where(out, m.police, b" police")?;
    put_hop(out, m.hop)?;
    put_period(out, m.period)
}

#[tactic(auto, unfolding(crate::specs::MessageText::path_text))]
fn put_path(out: &mut Vec<u8>, m: &PathMsg) -> Result<(), NoMemory>
    ensures text { OnOk result (out.new.items ≡ out.old.items ++ path_text m.now) }
    ensures front { OnErr result (StartsWith out.new.items out.old.items) }
    ensures full { OnErr result (vec_capacity out.old < length (out.old.items ++ path_text m.now)) }
    ensures kept { vec_capacity out.old ≤ vec_capacity out.new }
{
    put_path_head(out, m)?;
    put_path_sender(out, m.sender)?;
    put_advert(out, &m.adspec)
}

#[tactic(auto, unfolding(crate::specs::MessageText::resv_text))]
fn put_resv(out: &mut Vec<u8>, m: &ResvMsg) -> Result<(), NoMemory>
    ensures text { OnOk result (out.new.items ≡ out.old.items ++ resv_text m.now) }
    ensures front { OnErr result (StartsWith out.new.items out.old.items) }
    ensures full { OnErr result (vec_capacity out.old < length (out.old.items ++ resv_text m.now)) }
    ensures kept { vec_capacity out.old ≤ vec_capacity out.new }
{
    put(out, b"Resv ")?;
    put_session(out, m.session)?;
    put_hop(out, m.hop)?;
    put_period(out, m.period)?;
    put_wish(out, m.confirm)?;
    put_ask(out, &m.ask)
}

#[tactic(auto, unfolding(crate::specs::MessageText::path_err_text))]
fn put_path_err(out: &mut Vec<u8>, m: &PathErrMsg) -> Result<(), NoMemory>
    ensures text { OnOk result (out.new.items ≡ out.old.items ++ path_err_text m.now) }
    ensures front { OnErr result (StartsWith out.new.items out.old.items) }
    ensures full { OnErr result (vec_capacity out.old < length (out.old.items ++ path_err_text m.now)) }
    ensures kept { vec_capacity out.old ≤ vec_capacity out.new }
{
    put(out, b"PathErr ")?;
    put_session(out, m.session)?;
    put_error(out, m.err)?;
    put_only_sender(out, m.sender)
}

#[tactic(auto, unfolding(crate::specs::MessageText::resv_err_text))]
fn put_resv_err(out: &mut Vec<u8>, m: &ResvErrMsg) -> Result<(), NoMemory>
    ensures text { OnOk result (out.new.items ≡ out.old.items ++ resv_err_text m.now) }
    ensures front { OnErr result (StartsWith out.new.items out.old.items) }
    ensures full { OnErr result (vec_capacity out.old < length (out.old.items ++ resv_err_text m.now)) }
    ensures kept { vec_capacity out.old ≤ vec_capacity out.new }
{
    put(out, b"ResvErr ")?;
    put_session(out, m.session)?;
    put_hop(out, m.hop)?;
    put_error(out, m.err)?;
    put_blame(out, &m.blame)
}

#[tactic(auto, unfolding(crate::specs::MessageText::path_tear_text))]
fn put_path_tear(out: &mut Vec<u8>, m: &PathTearMsg) -> Result<(), NoMemory>
    ensures text { OnOk result (out.new.items ≡ out.old.items ++ path_tear_text m.now) }
    ensures front { OnErr result (StartsWith out.new.items out.old.items) }
    ensures full { OnErr result (vec_capacity out.old < length (out.old.items ++ path_tear_text m.now)) }
    ensures kept { vec_capacity out.old ≤ vec_capacity out.new }
{
    put(out, b"PathTear ")?;
    put_session(out, m.session)?;
    put_hop(out, m.hop)?;
    put_only_sender(out, m.sender)
}

#[tactic(auto, unfolding(crate::specs::MessageText::resv_tear_text))]
fn put_resv_tear(out: &mut Vec<u8>, m: &ResvTearMsg) -> Result<(), NoMemory>
    ensures text { OnOk result (out.new.items ≡ out.old.items ++ resv_tear_text m.now) }
    ensures front { OnErr result (StartsWith out.new.items out.old.items) }
    ensures full { OnErr result (vec_capacity out.old < length (out.old.items ++ resv_tear_text m.now)) }
    ensures kept { vec_capacity out.old ≤ vec_capacity out.new }
{
    put(out, b"ResvTear ")?;
    put_session(out, m.session)?;
    put_hop(out, m.hop)?;
    put_tear(out, &m.tear)
}

#[tactic(auto, unfolding(crate::specs::MessageText::resv_conf_text))]
fn put_resv_conf(out: &mut Vec<u8>, m: &ResvConfMsg) -> Result<(), NoMemory>
    ensures text { OnOk result (out.new.items ≡ out.old.items ++ resv_conf_text m.now) }
    ensures front { OnErr result (StartsWith out.new.items out.old.items) }
    ensures full { OnErr result (vec_capacity out.old < length (out.old.items ++ resv_conf_text m.now)) }
    ensures kept { vec_capacity out.old ≤ vec_capacity out.new }
{
    put(out, b"ResvConf ")?;
    put_session(out, m.session)?;
    put_error(out, m.err)?;
    put_confirm(out, m.confirm)?;
    put_ask(out, &m.ask)
}

fn put_words(out: &mut Vec<u8>, message: &Message) -> Result<(), NoMemory>
    ensures text { OnOk result (out.new.items ≡ out.old.items ++ words_text message.now) }
    ensures front { OnErr result (StartsWith out.new.items out.old.items) }
    ensures full { OnErr result (vec_capacity out.old < length (out.old.items ++ words_text message.now)) }
    ensures kept { vec_capacity out.old ≤ vec_capacity out.new }
{
    match message {
        Message::Path(m) => put_path(out, m),
        Message::Resv(m) => put_resv(out, m),
        Message::PathErr(m) => put_path_err(out, m),
        Message::ResvErr(m) => put_resv_err(out, m),
        Message::PathTear(m) => put_path_tear(out, m),
        Message::ResvTear(m) => put_resv_tear(out, m),
        Message::ResvConf(m) => put_resv_conf(out, m),
    }
}

/// Appends the line of a message: its kind, its session, and what its objects say (RFC 2205, 3.1). `NoMemory`: the
/// room that the text had did not suffice, and there was no memory for more; what was there stands at the front of what is.
#[tactic(auto, unfolding(crate::specs::MessageText::message_text))]
pub fn put_message(out: &mut Vec<u8>, message: &Message) -> Result<(), NoMemory>
    ensures text { OnOk result (out.new.items ≡ out.old.items ++ message_text message.now) }
    ensures front { OnErr result (StartsWith out.new.items out.old.items) }
    ensures full { OnErr result (vec_capacity out.old < length (out.old.items ++ message_text message.now)) }
    ensures kept { vec_capacity out.old ≤ vec_capacity out.new }
{
    put_words(out, message)?;
    put(out, b"\n")
}
