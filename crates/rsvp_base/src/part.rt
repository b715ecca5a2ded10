//! Parts of reservations.
ghost use Rattle.std.specs.Prelude.{◌≡◌};
ghost use Rattle.rsvp_base.specs.Styles.{part_unit};

use crate::flow::Flow;
use crate::senders::Senders;
use crate::style::{StyleKind, Unit};

/// A part of a reservation: the senders that it is for, under the names by which its style lists them, and the flow that
/// is reserved for them together (RFC 2205, 1.3 and 2.2).
#[derive(Default, Drop)]
pub struct Part {
    pub senders: Senders,
    pub flow: Flow,
}

impl Part {
    /// An equal part.
    pub fn copy(&self) -> Part
        ensures { result ≡ self.now }
    {
        Part {
            senders: self.senders.copy(),
            flow: self.flow,
        }
    }

    /// The unit under which a style has this part (RFC 2205, 1.3): that of its senders.
    pub fn unit(&self, kind: StyleKind) -> Unit
        ensures { result ≡ part_unit kind self.now }
    {
        self.senders.unit(kind)
    }
}
