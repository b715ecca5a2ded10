//! What a blockade stands for.
ghost use Rattle.std.specs.Prelude.{◌≡◌};
ghost use Rattle.style_rules.specs.Targets.{target_place};

use rsvp_base::sorted::Key;
use rsvp_base::{Addr, Sender};
use std::cmp::Ordering;

/// Toward what the requests of a session are blockaded (RFC 2205, 3.5): for a wildcard filter a previous hop, by the
/// interface that leads to it and its address; for the other styles a sender.
#[derive(Clone, Copy, Debug, PartialEq, Eq, PartialOrd, Ord, Hash)]
pub enum Target {
    Hop(u8, Addr),
    Sender(Sender),
}

/// Previous hops by interface and address, and then senders.
impl Key for Target {
    ghost use Rattle.style_rules.specs.Targets.{targets};

    ghost keys = { targets };

    fn order(&self, other: &Target) -> Ordering {
        let (sender, (iface, addr)) = place(self);
        let (other_sender, (other_iface, other_addr)) = place(other);
        sender
            .cmp(&other_sender)
            .then(iface.cmp(&other_iface).then(addr.cmp(&other_addr)))
    }
}

fn place(target: &Target) -> (Option<Sender>, (u8, Addr))
    ensures { result ≡ target_place target.now }
{
    match *target {
        Target::Hop(iface, addr) => (None, (iface, addr)),
        Target::Sender(sender) => (Some(sender), (0, Addr(0))),
    }
}
