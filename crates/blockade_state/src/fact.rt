//! What is kept of a blockade.
ghost use Rattle.std.specs.Prelude.{◌≡◌};
ghost use Rattle.style_rules.specs.Targets.{target_place, targets};

use rsvp_base::{Addr, Sender, Session};
use soft_table::Fact;
use std::cmp::Ordering;
use style_rules::{Target, Wall};

// A blockade of a session toward a target.
#[derive(Clone, Copy)]
pub(crate) struct Kept {
    pub(crate) session: Session,
    pub(crate) target: Target,
    pub(crate) wall: Wall,
}

impl Fact for Kept {
    ghost use Rattle.style_rules.specs.Targets.{targets};

    type Rest = Target;

    ghost rests = { targets };

    ghost key_of = { λ f. (f.session, f.target) };

    fn key(&self) -> (Session, Target) {
        (self.session, self.target)
    }

    fn order(a: &Target, b: &Target) -> Ordering {
        target_order(a, b)
    }
}

// The order of targets: previous hops by interface and address, and then senders.
fn target_order(a: &Target, b: &Target) -> Ordering
    ensures { result ≡ targets.cmp a.now b.now }
{
    let (sender, (iface, addr)) = place(a);
    let (other, (beside, next)) = place(b);
    sender
        .cmp(&other)
        .then(iface.cmp(&beside).then(addr.cmp(&next)))
}

// Where a target stands among all: what tells it apart, as a sender and a hop.
fn place(target: &Target) -> (Option<Sender>, (u8, Addr))
    ensures { result ≡ target_place target.now }
{
    match *target {
        Target::Hop(iface, addr) => (None, (iface, addr)),
        Target::Sender(sender) => (Some(sender), (0, Addr(0))),
    }
}
