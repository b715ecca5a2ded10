//! Objects.
ghost use Rattle.std.specs.Prelude.{◌≡◌};

use crate::adspec::Adspec;
use rsvp_base::{Addr, ErrSpec, Flow, Hop, Sender, Senders, Session, StyleKind};

/// What an object says (RFC 2205, appendix A; RFC 2210, 3).
#[derive(Drop)]
pub enum Object {
    /// SESSION, with the flag E_Police.
    Session { session: Session, police: bool },
    /// RSVP_HOP.
    HopOf(Hop),
    /// TIME_VALUES: the refresh period in milliseconds.
    Time(u32),
    /// ERROR_SPEC.
    Error(ErrSpec),
    /// SCOPE: the addresses of senders, each with port 0.
    Scope(Senders),
    /// STYLE.
    StyleOf(StyleKind),
    /// FLOWSPEC of the controlled-load service.
    FlowOf(Flow),
    /// FILTER_SPEC.
    Filter(Sender),
    /// SENDER_TEMPLATE.
    Template(Sender),
    /// SENDER_TSPEC.
    Tspec(Flow),
    /// ADSPEC of integrated services.
    Advert(Adspec),
    /// RESV_CONFIRM: the address that asks for confirmation.
    Confirm(Addr),
    /// An object that is skipped unread: NULL, INTEGRITY, POLICY_DATA, a class from 128 on (RFC 2205, 3.10), or an ADSPEC of
    /// another form.
    Skipped { class: u8 },
}

impl Object {
    /// An equal object.
    pub fn copy(&self) -> Object
        ensures { result ≡ self.now }
    {
        match self {
            Object::Session { session, police } => Object::Session {
                session: *session,
                police: *police,
            },
            Object::HopOf(hop) => Object::HopOf(*hop),
            Object::Time(period) => Object::Time(*period),
            Object::Error(error) => Object::Error(*error),
            Object::Scope(senders) => Object::Scope(senders.copy()),
            Object::StyleOf(style) => Object::StyleOf(*style),
            Object::FlowOf(flow) => Object::FlowOf(*flow),
            Object::Filter(sender) => Object::Filter(*sender),
            Object::Template(sender) => Object::Template(*sender),
            Object::Tspec(flow) => Object::Tspec(*flow),
            Object::Advert(adspec) => Object::Advert(adspec.copy()),
            Object::Confirm(addr) => Object::Confirm(*addr),
            Object::Skipped { class } => Object::Skipped { class: *class },
        }
    }
}
