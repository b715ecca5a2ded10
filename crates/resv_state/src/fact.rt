//! Facts of reservations.
ghost use Rattle.std.specs.Prelude.{◌≡◌};
ghost use Rattle.rsvp_base.specs.Keys.{pairs};
ghost use Rattle.rsvp_base.specs.Orders.{units};
ghost use Rattle.style_rules.specs.Lines.{next_hops};

use rsvp_base::{Addr, Part, Session, Unit};
use soft_table::Fact;
use std::cmp::Ordering;

/// What a node keeps of a reservation: for which session and next hop (the interface that leads to it, and its address),
/// the part that it asks for, and who wants to hear that it stands (RFC 2205, 2.6).
#[derive(Drop)]
pub struct ResvFact {
    pub session: Session,
    pub iface: u8,
    pub next: Addr,
    pub part: Part,
    pub confirm: Option<Addr>,
}

impl ResvFact {
    /// An equal fact.
    pub fn copy(&self) -> ResvFact
        ensures { result ≡ self.now }
    {
        ResvFact {
            session: self.session,
            iface: self.iface,
            next: self.next,
            part: self.part.copy(),
            confirm: self.confirm,
        }
    }
}

// A fact with the unit under which it stands.
#[derive(Drop)]
pub(crate) struct Held {
    pub(crate) unit: Unit,
    pub(crate) fact: ResvFact,
}

impl Fact for Held {
    ghost use Rattle.rsvp_base.specs.Keys.{pairs};
    ghost use Rattle.rsvp_base.specs.Orders.{units};
    ghost use Rattle.style_rules.specs.Lines.{next_hops};

    type Rest = ((u8, Addr), Unit);

    ghost rests = { pairs next_hops units };

    ghost key_of = { λ h. (h.fact.session, ((h.fact.iface, h.fact.next), h.unit)) };

    fn key(&self) -> (Session, ((u8, Addr), Unit)) {
        (
            self.fact.session,
            ((self.fact.iface, self.fact.next), self.unit),
        )
    }

    #[inline(always)]
    fn order(a: &((u8, Addr), Unit), b: &((u8, Addr), Unit)) -> Ordering {
        rest_order(a, b)
    }
}

// By next hop, and then by unit.
#[inline(always)]
pub(crate) fn rest_order(a: &((u8, Addr), Unit), b: &((u8, Addr), Unit)) -> Ordering
    ensures { result ≡ (pairs next_hops units).cmp a.now b.now }
{
    let ((iface, next), unit) = *a;
    let ((other, beside), second) = *b;
    iface
        .cmp(&other)
        .then(next.cmp(&beside))
        .then(unit.cmp(&second))
}
