//! Messages from what their objects say, or the lowest class that is missing, with what could be read. What is said by lists is
//! moved out.
//!
//! Each kind has a function of its own, and in that of a Resv or ResvConf each style returns by itself, so that a message is made
//! where it is answered: it is large, and each further place for one would be cleared and copied. For the same reason each such
//! function is a part of the one that calls it, and a list is made where it is answered, once it is known that there is one. A list
//! of flow descriptors is the largest part, and no function answers one.
ghost use Rattle.std.specs.Prelude.{◌≡◌, ◌≤◌, length, Some};
ghost use Rattle.rsvp_messages.specs.declared.fault.Fault.TheVariants as AFault;
ghost use Rattle.rsvp_messages.specs.declared.message.Kind.TheVariants as AKind;
ghost use Rattle.message_codec.specs.Finishing.{Finishes};
ghost use Rattle.message_codec.specs.Hints.{IsHint};
ghost use Rattle.message_codec.specs.Messages.{sender_of};

use crate::hinting::hint;
use crate::listing::{Start, blamed, is_nobody_named, names, put_others, start_of};
use crate::seen::Seen;
use rsvp_base::{Flow, Part, Sender, StyleKind};
use rsvp_messages::{
    Ask, Blame, Fault, FixedList, Kind, Message, MsgErr, PathErrMsg, PathMsg, PathTearMsg,
    ResvConfMsg, ResvErrMsg, ResvMsg, ResvTearMsg, Tear,
};
use rsvp_objects::Class;

/// What is told of a Path.
#[tactic(auto, unfolding(crate::specs::Messages::message_of, crate::specs::Messages::path_of))]
#[inline(always)]
pub fn path(seen: &mut Seen, bytes: &[u8]) -> Result<Message, MsgErr>
    requires long { 8 ≤ length bytes.now }
    requires short { length bytes.now ≤ 65535 }
    ensures { Finishes AKind.Path seen.old bytes.now result }
{
    let Some((session, police)) = seen.session else {
        return Err(lacking(Kind::Path, Class::SESSION, bytes));
    };
    let Some(hop) = seen.hop else {
        return Err(lacking(Kind::Path, Class::RSVP_HOP, bytes));
    };
    let Some(period) = seen.period else {
        return Err(lacking(Kind::Path, Class::TIME_VALUES, bytes));
    };
    let sender = match sender_with(seen.template, seen.tspec) {
        Ok(sender) => sender,
        Err(fault) => return Err(told(Kind::Path, fault, bytes)),
    };
    Ok(Message::Path(PathMsg {
        session,
        police,
        hop,
        period,
        sender,
        adspec: seen.advert.take(),
    }))
}

/// What is told of a PathErr.
#[tactic(auto, unfolding(crate::specs::Messages::message_of, crate::specs::Messages::path_err_of))]
#[inline(always)]
pub fn path_err(seen: &Seen, bytes: &[u8]) -> Result<Message, MsgErr>
    requires long { 8 ≤ length bytes.now }
    requires short { length bytes.now ≤ 65535 }
    ensures { Finishes AKind.PathErr seen.now bytes.now result }
{
    let Some((session, _)) = seen.session else {
        return Err(lacking(Kind::PathErr, Class::SESSION, bytes));
    };
    let Some(err) = seen.error else {
        return Err(lacking(Kind::PathErr, Class::ERROR_SPEC, bytes));
    };
    Ok(Message::PathErr(PathErrMsg {
        session,
        err,
        sender: seen.template,
    }))
}

/// What is told of a PathTear.
#[tactic(auto, unfolding(crate::specs::Messages::message_of, crate::specs::Messages::path_tear_of))]
#[inline(always)]
pub fn path_tear(seen: &Seen, bytes: &[u8]) -> Result<Message, MsgErr>
    requires long { 8 ≤ length bytes.now }
    requires short { length bytes.now ≤ 65535 }
    ensures { Finishes AKind.PathTear seen.now bytes.now result }
{
    let Some((session, _)) = seen.session else {
        return Err(lacking(Kind::PathTear, Class::SESSION, bytes));
    };
    let Some(hop) = seen.hop else {
        return Err(lacking(Kind::PathTear, Class::RSVP_HOP, bytes));
    };
    Ok(Message::PathTear(PathTearMsg {
        session,
        hop,
        sender: seen.template,
    }))
}

/// What is told of a ResvErr.
#[tactic(auto, unfolding(crate::specs::Messages::message_of, crate::specs::Messages::resv_err_of))]
#[inline(always)]
pub fn resv_err(seen: &mut Seen, bytes: &[u8]) -> Result<Message, MsgErr>
    requires long { 8 ≤ length bytes.now }
    requires short { length bytes.now ≤ 65535 }
    ensures { Finishes AKind.ResvErr seen.old bytes.now result }
{
    let Some((session, _)) = seen.session else {
        return Err(lacking(Kind::ResvErr, Class::SESSION, bytes));
    };
    let Some(hop) = seen.hop else {
        return Err(lacking(Kind::ResvErr, Class::RSVP_HOP, bytes));
    };
    let Some(err) = seen.error else {
        return Err(lacking(Kind::ResvErr, Class::ERROR_SPEC, bytes));
    };
    let Some(style) = seen.style else {
        return Err(lacking(Kind::ResvErr, Class::STYLE, bytes));
    };
    if style == StyleKind::Wild {
        return Ok(Message::ResvErr(ResvErrMsg {
            session,
            hop,
            err,
            blame: Blame {
                style,
                senders: seen.scope.take(),
                flow: seen.flow,
            },
        }));
    }
    let Some(flow) = seen.flow else {
        return Ok(Message::ResvErr(ResvErrMsg {
            session,
            hop,
            err,
            blame: Blame {
                style,
                senders: None,
                flow: None,
            },
        }));
    };
    if is_nobody_named(&seen.filters) {
        return Err(lacking(Kind::ResvErr, Class::FILTER_SPEC, bytes));
    }
    Ok(Message::ResvErr(ResvErrMsg {
        session,
        hop,
        err,
        blame: Blame {
            style,
            senders: Some(blamed(style, &seen.filters)),
            flow: Some(flow),
        },
    }))
}

/// What is told of a ResvTear.
#[tactic(auto, unfolding(crate::specs::Messages::message_of, crate::specs::Messages::resv_tear_of))]
#[inline(always)]
pub fn resv_tear(seen: &mut Seen, bytes: &[u8]) -> Result<Message, MsgErr>
    requires long { 8 ≤ length bytes.now }
    requires short { length bytes.now ≤ 65535 }
    ensures { Finishes AKind.ResvTear seen.old bytes.now result }
{
    let Some((session, _)) = seen.session else {
        return Err(lacking(Kind::ResvTear, Class::SESSION, bytes));
    };
    let Some(hop) = seen.hop else {
        return Err(lacking(Kind::ResvTear, Class::RSVP_HOP, bytes));
    };
    let Some(style) = seen.style else {
        return Err(lacking(Kind::ResvTear, Class::STYLE, bytes));
    };
    if style != StyleKind::Wild && is_nobody_named(&seen.filters) {
        return Err(lacking(Kind::ResvTear, Class::FILTER_SPEC, bytes));
    }
    Ok(Message::ResvTear(ResvTearMsg {
        session,
        hop,
        tear: match style {
            StyleKind::Wild => Tear::Wild {
                scope: seen.scope.take(),
            },
            StyleKind::Fixed => Tear::Fixed(names(&seen.filters)),
            StyleKind::Shared => Tear::Shared(names(&seen.filters)),
        },
    }))
}

/// What is told of a Resv.
#[tactic(auto, unfolding(crate::specs::Messages::message_of, crate::specs::Messages::resv_of))]
#[inline(always)]
pub fn resv(seen: &mut Seen, bytes: &[u8]) -> Result<Message, MsgErr>
    requires long { 8 ≤ length bytes.now }
    requires short { length bytes.now ≤ 65535 }
    ensures { Finishes AKind.Resv seen.old bytes.now result }
{
    let Some((session, _)) = seen.session else {
        return Err(lacking(Kind::Resv, Class::SESSION, bytes));
    };
    let Some(hop) = seen.hop else {
        return Err(lacking(Kind::Resv, Class::RSVP_HOP, bytes));
    };
    let Some(period) = seen.period else {
        return Err(lacking(Kind::Resv, Class::TIME_VALUES, bytes));
    };
    let Some(style) = seen.style else {
        return Err(lacking(Kind::Resv, Class::STYLE, bytes));
    };
    let Some(flow) = seen.flow else {
        return Err(lacking(Kind::Resv, Class::FLOWSPEC, bytes));
    };
    let Some(start) = start_of(style, seen) else {
        return Err(lacking(Kind::Resv, Class::FILTER_SPEC, bytes));
    };
    match start {
        Start::Wild => {
            return Ok(Message::Resv(ResvMsg {
                session,
                hop,
                period,
                confirm: seen.confirm,
                ask: Ask::Wild {
                    scope: seen.scope.take(),
                    flow,
                },
            }));
        }
        Start::Fixed(first) => {
            let mut list = FixedList::new(first.sender, first.flow);
            put_others(&mut list, &seen.filters, &first);
            return Ok(Message::Resv(ResvMsg {
                session,
                hop,
                period,
                confirm: seen.confirm,
                ask: Ask::Fixed(list),
            }));
        }
        Start::Shared => {
            return Ok(Message::Resv(ResvMsg {
                session,
                hop,
                period,
                confirm: seen.confirm,
                ask: Ask::Shared(Part {
                    senders: names(&seen.filters),
                    flow,
                }),
            }));
        }
    }
}

/// What is told of a ResvConf.
#[tactic(auto, unfolding(crate::specs::Messages::message_of, crate::specs::Messages::resv_conf_of))]
#[inline(always)]
pub fn resv_conf(seen: &Seen, bytes: &[u8]) -> Result<Message, MsgErr>
    requires long { 8 ≤ length bytes.now }
    requires short { length bytes.now ≤ 65535 }
    ensures { Finishes AKind.ResvConf seen.now bytes.now result }
{
    let Some((session, _)) = seen.session else {
        return Err(lacking(Kind::ResvConf, Class::SESSION, bytes));
    };
    let Some(err) = seen.error else {
        return Err(lacking(Kind::ResvConf, Class::ERROR_SPEC, bytes));
    };
    let Some(style) = seen.style else {
        return Err(lacking(Kind::ResvConf, Class::STYLE, bytes));
    };
    let Some(flow) = seen.flow else {
        return Err(lacking(Kind::ResvConf, Class::FLOWSPEC, bytes));
    };
    let Some(start) = start_of(style, seen) else {
        return Err(lacking(Kind::ResvConf, Class::FILTER_SPEC, bytes));
    };
    let Some(confirm) = seen.confirm else {
        return Err(lacking(Kind::ResvConf, Class::RESV_CONFIRM, bytes));
    };
    match start {
        Start::Wild => {
            return Ok(Message::ResvConf(ResvConfMsg {
                session,
                err,
                confirm,
                ask: Ask::Wild { scope: None, flow },
            }));
        }
        Start::Fixed(first) => {
            let mut list = FixedList::new(first.sender, first.flow);
            put_others(&mut list, &seen.filters, &first);
            return Ok(Message::ResvConf(ResvConfMsg {
                session,
                err,
                confirm,
                ask: Ask::Fixed(list),
            }));
        }
        Start::Shared => {
            return Ok(Message::ResvConf(ResvConfMsg {
                session,
                err,
                confirm,
                ask: Ask::Shared(Part {
                    senders: names(&seen.filters),
                    flow,
                }),
            }));
        }
    }
}

// A class that is missing, with what could be read.
#[cold]
fn lacking(kind: Kind, class: Class, bytes: &[u8]) -> MsgErr
    requires long { 8 ≤ length bytes.now }
    requires short { length bytes.now ≤ 65535 }
    ensures fault { result.fault ≡ AFault.Missing class.0 }
    ensures kind { result.kind ≡ Some kind }
    ensures hint { IsHint bytes.now result.hint }
{
    told(kind, Fault::Missing(class.0), bytes)
}

/// A fault of the objects of a message, with what could be read.
#[cold]
pub fn told(kind: Kind, fault: Fault, bytes: &[u8]) -> MsgErr
    requires long { 8 ≤ length bytes.now }
    requires short { length bytes.now ≤ 65535 }
    ensures fault { result.fault ≡ fault }
    ensures kind { result.kind ≡ Some kind }
    ensures hint { IsHint bytes.now result.hint }
{
    MsgErr {
        fault,
        kind: Some(kind),
        hint: hint(bytes),
    }
}

// SENDER_TEMPLATE and SENDER_TSPEC, which stand together.
#[inline(always)]
fn sender_with(
    template: Option<Sender>,
    tspec: Option<Flow>,
) -> Result<Option<(Sender, Flow)>, Fault>
    ensures { result ≡ sender_of template tspec }
{
    match (template, tspec) {
        (Some(sender), Some(flow)) => Ok(Some((sender, flow))),
        (Some(_), None) => Err(Fault::Missing(Class::SENDER_TSPEC.0)),
        (None, Some(_)) => Err(Fault::Missing(Class::SENDER_TEMPLATE.0)),
        (None, None) => Ok(None),
    }
}
