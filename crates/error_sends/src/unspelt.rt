//! Messages that are not spelt are answered.
ghost use Rattle.std.specs.Prelude.{◌≡◌, false, fold};
ghost use Rattle.std.specs.Option.{option_map};
ghost use Rattle.router_rules.specs.Errors.{act_unspelt, reply_to};
ghost use Rattle.router_rules.specs.Facts.{Facts};
ghost use Rattle.router_rules.specs.Sends.{error_sends};
ghost use Rattle.error_sends.specs.Replies.{path_reply, resv_reply, reply_of};

use crate::answer::answer_for;
use router_rules::{Heard, Outbox, Why};
use router_state::Config;
use rsvp_base::{Addr, ErrSpec, Hop, Sender, Session, StyleKind};
use rsvp_messages::{Blame, Kind, Message, MsgErr, PathErrMsg, ResvErrMsg};

/// Answers bytes that spell no message and came by an interface, to an address (RFC 2205, 3.10 and appendix B): to the hop
/// that sent them, where the fault has a code, and the hint whom to tell. They had to come to the group of their session,
/// or, those of a Resv, to the node.
pub fn answer_unspelt<O: Outbox>(
    config: &Config,
    iface: u8,
    dst: Addr,
    err: &MsgErr,
    out: &mut O,
) -> Heard
    ensures heard { (f : Facts) → result ≡ (act_unspelt config.now iface dst err.now f).heard }
    ensures sent { (f : Facts) → out.new ≡ fold O.posted out.old (error_sends (act_unspelt config.now iface dst err.now f).errors) }
{
    match answer_of(config, iface, dst, err) {
        Some(reply) => {
            out.post(iface, reply.dst, &reply.message, false);
            reply.heard
        }
        None => Heard::Dropped(Why::Unspelt),
    }
}

// An answer: to whom it goes, and what is heard then.
#[derive(Drop)]
pub(crate) struct Reply {
    pub(crate) dst: Addr,
    pub(crate) message: Message,
    pub(crate) heard: Heard,
}

// The answer, if there is one.
fn answer_of(config: &Config, iface: u8, dst: Addr, err: &MsgErr) -> Option<Reply>
    ensures { result ≡ option_map reply_of (reply_to config.now iface dst err.now) }
{
    let Some(code) = answer_for(err) else {
        return None;
    };
    let hint = err.hint;
    let own = config.own(iface);
    match (err.kind, hint.session, hint.hop, hint.style) {
        (Some(Kind::Path), Some(session), Some(hop), _) => {
            path_reply(own, dst, code, session, hop, hint.sender)
        }
        (Some(Kind::Resv), Some(session), Some(hop), Some(style)) => {
            resv_reply(own, dst, code, session, hop, style)
        }
        _ => None,
    }
}

// That to a Path's hop.
fn path_reply(
    own: Addr,
    dst: Addr,
    code: (u8, u16),
    session: Session,
    hop: Hop,
    sender: Option<Sender>,
) -> Option<Reply>
    ensures { result ≡ path_reply own dst code session hop sender }
{
    if dst != session.group {
        return None;
    }
    let message = PathErrMsg {
        session,
        err: spec_of(own, code),
        sender,
    };
    Some(Reply {
        dst: hop.addr,
        message: Message::PathErr(message),
        heard: Heard::Answered(code.0, code.1),
    })
}

// That to a Resv's hop.
fn resv_reply(
    own: Addr,
    dst: Addr,
    code: (u8, u16),
    session: Session,
    hop: Hop,
    style: StyleKind,
) -> Option<Reply>
    ensures { result ≡ resv_reply own dst code session hop style }
{
    if dst != own {
        return None;
    }
    let message = ResvErrMsg {
        session,
        hop: Hop {
            addr: own,
            handle: 0,
        },
        err: spec_of(own, code),
        blame: Blame {
            style,
            senders: None,
            flow: None,
        },
    };
    Some(Reply {
        dst: hop.addr,
        message: Message::ResvErr(message),
        heard: Heard::Answered(code.0, code.1),
    })
}

// An error of this node.
fn spec_of(own: Addr, code: (u8, u16)) -> ErrSpec
    ensures { result ≡ record { node = own; in_place = false; not_guilty = false; code = code.0; value = code.1 } }
{
    ErrSpec {
        node: own,
        in_place: false,
        not_guilty: false,
        code: code.0,
        value: code.1,
    }
}
