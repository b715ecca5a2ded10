//! Facts of paths.
ghost use Rattle.std.specs.Prelude.{◌≡◌};

use rsvp_base::{Flow, Hop, Sender, Session};
use rsvp_objects::Adspec;
use soft_table::Fact;
use std::cmp::Ordering;

/// What a node knows of a path: by which interface and from which hop its Path message came, the traffic that the sender
/// announces, whether it is to be policed (RFC 2205, 3.1.3: E_Police), and what the path offers, where the Path had an ADSPEC
/// (RFC 2210, 3.3).
#[derive(Drop)]
pub struct PathFact {
    pub session: Session,
    pub sender: Sender,
    pub iface: u8,
    pub hop: Hop,
    pub tspec: Flow,
    pub police: bool,
    pub adspec: Option<Adspec>,
}

impl PathFact {
    /// An equal fact.
    pub fn copy(&self) -> PathFact
        ensures { result ≡ self.now }
    {
        PathFact {
            session: self.session,
            sender: self.sender,
            iface: self.iface,
            hop: self.hop,
            tspec: self.tspec,
            police: self.police,
            adspec: copy_of(&self.adspec),
        }
    }
}

/// An equal ADSPEC, if there is one.
pub fn copy_of(adspec: &Option<Adspec>) -> Option<Adspec>
    ensures { result ≡ adspec.now }
{
    match adspec {
        Some(adspec) => Some(adspec.copy()),
        None => None,
    }
}

impl Fact for PathFact {
    ghost use Rattle.rsvp_base.specs.Orders.{senders};

    type Rest = Sender;

    ghost rests = { senders };

    ghost key_of = { λ f. (f.session, f.sender) };

    fn key(&self) -> (Session, Sender) {
        (self.session, self.sender)
    }

    #[inline(always)]
    fn order(a: &Sender, b: &Sender) -> Ordering {
        a.cmp(b)
    }
}
