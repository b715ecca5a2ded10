//! Answers to messages that are not spelt.
ghost use Rattle.std.specs.Prelude.{◌≡◌, ◌+◌, ◌*◌};
ghost use Rattle.rsvp_messages.specs.declared.message.Kind.TheVariants.{Path, Resv};
ghost use Rattle.router_rules.specs.Errors.{fault_code};
ghost use Rattle.error_sends.specs.Answers.{answer_of};

use rsvp_messages::{Fault, Kind, MsgErr};
use rsvp_objects::ObjErr;

/// The error code and value with which a fault of a Path or a Resv is answered (RFC 2205, 3.10 and appendix B). `None`
/// exactly where it is not: the fault has none for this kind, or the hint lacks what the answer needs, the session, the hop
/// and for a Resv the style.
pub fn answer_for(err: &MsgErr) -> Option<(u8, u16)>
    ensures { result ≡ answer_of err.now }
{
    let hint = err.hint;
    let addressed = hint.session.is_some() && hint.hop.is_some();
    match err.kind {
        Some(Kind::Path) if addressed => path_code(err.fault),
        Some(Kind::Resv) if addressed && hint.style.is_some() => resv_code(err.fault),
        _ => None,
    }
}

// Those of a Path.
fn path_code(fault: Fault) -> Option<(u8, u16)>
    ensures { result ≡ fault_code Path fault }
{
    match fault {
        Fault::Object(ObjErr::Class(_, class, ctype)) => Some((13, word(class, ctype))),
        Fault::Object(ObjErr::CType(_, class, ctype)) => Some((14, word(class, ctype))),
        Fault::Object(ObjErr::Tspec(_)) => Some((21, 4)),
        _ => None,
    }
}

// Those of a Resv.
fn resv_code(fault: Fault) -> Option<(u8, u16)>
    ensures { result ≡ fault_code Resv fault }
{
    match fault {
        Fault::Object(ObjErr::Class(_, class, ctype)) => Some((13, word(class, ctype))),
        Fault::Object(ObjErr::CType(_, class, ctype)) => Some((14, word(class, ctype))),
        Fault::Object(ObjErr::Service(_)) => Some((21, 2)),
        Fault::Object(ObjErr::Flow(_)) => Some((21, 3)),
        _ => None,
    }
}

// A class and a C-Type as one value.
fn word(class: u8, ctype: u8) -> u16
    ensures { result ≡ 256 * class + ctype }
{
    256 * class as u16 + ctype as u16
}
