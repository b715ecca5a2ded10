//! The classes whose objects are read.
ghost use Rattle.std.specs.Prelude.{◌≡◌};
ghost use Rattle.rsvp_objects.specs.Classes.{class_number, ctype_of, size_of, class_with};

use crate::class::Class;
use crate::values::ctype;

/// The classes of objects that are read (RFC 2205, appendix A; RFC 2210, 3).
#[derive(Clone, Copy, Debug, PartialEq, Eq)]
pub enum ReadClass {
    Session,
    RsvpHop,
    TimeValues,
    ErrorSpec,
    Scope,
    Style,
    FlowSpec,
    FilterSpec,
    SenderTemplate,
    SenderTspec,
    ResvConfirm,
}

impl ReadClass {
    /// The one that a class is. `None` exactly where its objects are not read.
    #[tactic(auto, unfolding(crate::specs::Classes::class_with))]
    #[inline(always)]
    pub fn of(class: Class) -> Option<ReadClass>
        ensures { result ≡ class_with class.0 }
    {
        match class {
            Class::SESSION => Some(ReadClass::Session),
            Class::RSVP_HOP => Some(ReadClass::RsvpHop),
            Class::TIME_VALUES => Some(ReadClass::TimeValues),
            Class::ERROR_SPEC => Some(ReadClass::ErrorSpec),
            Class::SCOPE => Some(ReadClass::Scope),
            Class::STYLE => Some(ReadClass::Style),
            Class::FLOWSPEC => Some(ReadClass::FlowSpec),
            Class::FILTER_SPEC => Some(ReadClass::FilterSpec),
            Class::SENDER_TEMPLATE => Some(ReadClass::SenderTemplate),
            Class::SENDER_TSPEC => Some(ReadClass::SenderTspec),
            Class::RESV_CONFIRM => Some(ReadClass::ResvConfirm),
            _ => None,
        }
    }

    /// Its Class-Num.
    pub fn number(self) -> u8
        ensures { result ≡ class_number self }
    {
        match self {
            ReadClass::Session => Class::SESSION.0,
            ReadClass::RsvpHop => Class::RSVP_HOP.0,
            ReadClass::TimeValues => Class::TIME_VALUES.0,
            ReadClass::ErrorSpec => Class::ERROR_SPEC.0,
            ReadClass::Scope => Class::SCOPE.0,
            ReadClass::Style => Class::STYLE.0,
            ReadClass::FlowSpec => Class::FLOWSPEC.0,
            ReadClass::FilterSpec => Class::FILTER_SPEC.0,
            ReadClass::SenderTemplate => Class::SENDER_TEMPLATE.0,
            ReadClass::SenderTspec => Class::SENDER_TSPEC.0,
            ReadClass::ResvConfirm => Class::RESV_CONFIRM.0,
        }
    }

    /// Its C-Type.
    #[inline(always)]
    pub fn ctype(self) -> u8
        ensures { result ≡ ctype_of self }
    {
        match self {
            ReadClass::FlowSpec | ReadClass::SenderTspec => ctype::INTSERV,
            _ => ctype::IPV4,
        }
    }

    /// How many bytes its contents have. `None` where they may have any number, or where another fault tells it.
    #[inline(always)]
    pub fn size(self) -> Option<usize>
        ensures { result ≡ size_of self }
    {
        match self {
            ReadClass::Session
            | ReadClass::RsvpHop
            | ReadClass::ErrorSpec
            | ReadClass::FilterSpec
            | ReadClass::SenderTemplate => Some(8),
            ReadClass::TimeValues | ReadClass::Style | ReadClass::ResvConfirm => Some(4),
            ReadClass::Scope | ReadClass::FlowSpec | ReadClass::SenderTspec => None,
        }
    }
}
