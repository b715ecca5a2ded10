//! The table of classes.
ghost use Rattle.std.specs.Prelude.{◌≡◌, ◌||◌, is_some};
ghost use Rattle.rsvp_objects.specs.Classes.{class_with, has_high_bit, is_skipped};

use crate::read_class::ReadClass;

// The high bit of a Class-Num.
const HIGH_BIT: u8 = 0x80;

/// The class of an object: its Class-Num (RFC 2205, 3.1.2). Those of appendix A have names.
#[derive(Clone, Copy, Debug, PartialEq, Eq)]
pub struct Class(pub u8);

impl Class {
    pub const NULL: Class = Class(0);

    pub const SESSION: Class = Class(1);

    pub const RSVP_HOP: Class = Class(3);

    pub const INTEGRITY: Class = Class(4);

    pub const TIME_VALUES: Class = Class(5);

    pub const ERROR_SPEC: Class = Class(6);

    pub const SCOPE: Class = Class(7);

    pub const STYLE: Class = Class(8);

    pub const FLOWSPEC: Class = Class(9);

    pub const FILTER_SPEC: Class = Class(10);

    pub const SENDER_TEMPLATE: Class = Class(11);

    pub const SENDER_TSPEC: Class = Class(12);

    pub const ADSPEC: Class = Class(crate::ADSPEC);

    pub const POLICY_DATA: Class = Class(14);

    pub const RESV_CONFIRM: Class = Class(15);

    /// Whether it is one of those that a receiver may skip where it does not know them (RFC 2205, 3.10).
    #[inline(always)]
    pub fn has_high_bit(self) -> bool
        ensures { result ≡ has_high_bit self.0 }
    {
        self.0 >= HIGH_BIT
    }

    /// Whether its objects are skipped unread, but for an ADSPEC whose contents are of their form.
    #[inline(always)]
    pub fn is_skipped(self) -> bool
        ensures { result ≡ is_skipped self.0 }
    {
        self == Class::NULL
            || self == Class::INTEGRITY
            || self == Class::ADSPEC
            || self == Class::POLICY_DATA
            || self.has_high_bit()
    }

    /// Whether its objects are read or skipped: the others are refused.
    #[inline(always)]
    pub fn is_known(self) -> bool
        ensures { result ≡ (is_skipped self.0 || is_some (class_with self.0)) }
    {
        self.is_skipped() || ReadClass::of(self).is_some()
    }
}
