//! What is kept of a lane.
ghost use Rattle.std.specs.Prelude.{◌≡◌};
ghost use Rattle.rsvp_base.specs.Keys.{pairs};
ghost use Rattle.rsvp_base.specs.Orders.{styles};
ghost use Rattle.style_rules.specs.Lines.{next_hops};

use rsvp_base::{Addr, Session, StyleKind};
use soft_table::Fact;
use std::cmp::Ordering;
use style_rules::Parts;

// What a lane was last sent.
#[derive(Drop)]
pub(crate) struct Sent {
    pub(crate) session: Session,
    pub(crate) style: StyleKind,
    pub(crate) hop: (u8, Addr),
    pub(crate) parts: Parts,
}

impl Fact for Sent {
    ghost use Rattle.rsvp_base.specs.Keys.{pairs};
    ghost use Rattle.rsvp_base.specs.Orders.{styles};
    ghost use Rattle.style_rules.specs.Lines.{next_hops};

    type Rest = (StyleKind, (u8, Addr));

    ghost rests = { pairs styles next_hops };

    ghost key_of = { λ f. (f.session, (f.style, f.hop)) };

    fn key(&self) -> (Session, (StyleKind, (u8, Addr))) {
        (self.session, (self.style, self.hop))
    }

    fn order(a: &(StyleKind, (u8, Addr)), b: &(StyleKind, (u8, Addr))) -> Ordering {
        lane_order(a, b)
    }
}

// The lanes of a session by style, and then by hop.
fn lane_order(a: &(StyleKind, (u8, Addr)), b: &(StyleKind, (u8, Addr))) -> Ordering
    ensures { result ≡ (pairs styles next_hops).cmp a.now b.now }
{
    let (style, (iface, addr)) = *a;
    let (other, (at, next)) = *b;
    style.cmp(&other).then(iface.cmp(&at).then(addr.cmp(&next)))
}
