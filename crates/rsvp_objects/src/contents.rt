//! What the contents of objects say.
ghost use Rattle.std.specs.Prelude.{◌≡◌, ◌<◌, ◌↔◌, length, IfSome, IsNone};
ghost use Rattle.rsvp_base.specs.Table.{size};
ghost use Rattle.rsvp_objects.specs.Contents as spec;
ghost use Rattle.rsvp_objects.specs.Contents.{scope_in};
ghost use Rattle.rsvp_objects.specs.declared.read_class.ReadClass.TheVariants as ReadClass;
ghost use Rattle.rsvp_objects.specs.declared.object.Object.TheVariants as AnObject;
ghost use Rattle.rsvp_objects.specs.Reading.{as_object, contents_of, IsSized};

use crate::fields::{addr_at, half_at, word_at};
use crate::flags::{is_in_place, is_not_guilty, is_police};
use crate::flow_reading::flow;
use crate::obj_err::ObjErr;
use crate::object::Object;
use crate::places;
use crate::read_class::ReadClass;
use crate::values::{service, style as options};
use rsvp_base::{Addr, ErrSpec, Flow, Hop, Sender, Senders, Session, StyleKind};

/// The object with these contents, which have the size of their class, or its fault. `at` is its place.
#[tactic(auto, unfolding(crate::specs::Reading::contents_of))]
#[inline(always)]
pub fn contents(at: u16, class: ReadClass, body: &[u8]) -> Result<Object, ObjErr>
    requires size { IsSized class body.now }
    ensures { result ≡ contents_of at class body.now }
{
    match class {
        ReadClass::Session => Ok(Object::Session {
            session: session(body),
            police: is_police(body[places::session::FLAGS]),
        }),
        ReadClass::RsvpHop => Ok(Object::HopOf(hop(body))),
        ReadClass::TimeValues => Ok(Object::Time(word_at(body, places::time_values::PERIOD))),
        ReadClass::ErrorSpec => Ok(Object::Error(error(body))),
        ReadClass::Scope => scope(body).map(Object::Scope).ok_or(ObjErr::Crowd(at)),
        ReadClass::Style => style(body).map(Object::StyleOf).ok_or(ObjErr::Style(at)),
        ReadClass::FlowSpec => flow_spec(at, body).map(Object::FlowOf),
        ReadClass::FilterSpec => Ok(Object::Filter(sender(body))),
        ReadClass::SenderTemplate => Ok(Object::Template(sender(body))),
        ReadClass::SenderTspec => flow(body, service::GENERAL)
            .map(Object::Tspec)
            .ok_or(ObjErr::Tspec(at)),
        ReadClass::ResvConfirm => Ok(Object::Confirm(addr_at(
            body,
            places::resv_confirm::RECEIVER,
        ))),
    }
}

/// The session of a SESSION.
#[inline(always)]
pub fn session(body: &[u8]) -> Session
    requires { length body.now ≡ 8 }
    ensures { result ≡ spec.session_in body.now }
{
    Session {
        group: addr_at(body, places::session::GROUP),
        proto: body[places::session::PROTO],
        port: half_at(body, places::session::PORT),
    }
}

/// The hop of an RSVP_HOP.
#[inline(always)]
pub fn hop(body: &[u8]) -> Hop
    requires { length body.now ≡ 8 }
    ensures { result ≡ spec.hop_in body.now }
{
    Hop {
        addr: addr_at(body, places::hop::ADDR),
        handle: word_at(body, places::hop::HANDLE),
    }
}

/// The error of an ERROR_SPEC.
#[inline(always)]
pub fn error(body: &[u8]) -> ErrSpec
    requires { length body.now ≡ 8 }
    ensures { result ≡ spec.error_in body.now }
{
    let flags = body[places::error_spec::FLAGS];
    ErrSpec {
        node: addr_at(body, places::error_spec::NODE),
        in_place: is_in_place(flags),
        not_guilty: is_not_guilty(flags),
        code: body[places::error_spec::CODE],
        value: half_at(body, places::error_spec::VALUE),
    }
}

/// The sender of a FILTER_SPEC or a SENDER_TEMPLATE.
#[inline(always)]
pub fn sender(body: &[u8]) -> Sender
    requires { length body.now ≡ 8 }
    ensures { result ≡ spec.sender_in body.now }
{
    Sender {
        addr: addr_at(body, places::sender::ADDR),
        port: half_at(body, places::sender::PORT),
    }
}

/// The style of a STYLE. `None` where it is no known one.
#[inline(always)]
pub fn style(body: &[u8]) -> Option<StyleKind>
    requires { length body.now ≡ 4 }
    ensures { result ≡ spec.style_in body.now }
{
    match body[places::style::OPTIONS] % options::FIVE_BITS {
        options::WILDCARD => Some(StyleKind::Wild),
        options::FIXED => Some(StyleKind::Fixed),
        options::SHARED_EXPLICIT => Some(StyleKind::Shared),
        _ => None,
    }
}

/// The flow of a FLOWSPEC. The service is looked at before the words, so that a flow of another service has a fault of its own.
#[tactic(auto, unfolding(crate::specs::Reading::contents_of))]
#[inline(always)]
pub fn flow_spec(at: u16, body: &[u8]) -> Result<Flow, ObjErr>
    ensures { as_object AnObject.FlowOf result ≡ contents_of at ReadClass.FlowSpec body.now }
{
    if body.len() >= places::flow::SERVICE_SEEN
        && body[places::flow::SERVICE] != service::CONTROLLED_LOAD
    {
        return Err(ObjErr::Service(at));
    }
    flow(body, service::CONTROLLED_LOAD).ok_or(ObjErr::Flow(at))
}

/// The addresses of a SCOPE. `None` exactly where they are more than 16.
pub fn scope(body: &[u8]) -> Option<Senders>
    ensures some { IfSome result (λ s. s ≡ scope_in body.now) }
    ensures none { IsNone result ↔ (16 < size (scope_in body.now)) }
{
    let mut senders = Senders::new();
    let mut rest = body;
    while rest.len() >= places::ADDR_SIZE {
        let source = Sender {
            addr: addr_at(rest, 0),
            port: 0,
        };
        if senders.insert(source).is_err() {
            return None;
        }
        rest = &rest[places::ADDR_SIZE..];
    }
    // What is known of the length, at most 16, is then at hand: a scope that was read is no crowd.
    let _ = senders.len();
    Some(senders)
}
