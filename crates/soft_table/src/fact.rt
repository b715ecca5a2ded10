//! Facts.
ghost use Rattle.std.specs.Prelude.{◌≡◌};
ghost use Rattle.rsvp_base.specs.Keys.{Keys};
ghost use Rattle.rsvp_base.specs.declared.session.Session.{Session};

use rsvp_base::Session;
use std::cmp::Ordering;

/// What a node knows of a session for a time: a path, a reservation or a blockade. A table has one fact for a key, which is
/// the fact's session and a rest.
pub trait Fact: Drop {
    /// What tells a fact from the others of its session.
    type Rest: Copy;

    ghost rests: { Keys Self.Rest };

    ghost key_of: { Self → Session × Self.Rest };

    /// The fact's session, and the rest of its key.
    fn key(&self) -> (Session, Self::Rest)
        ensures { result ≡ key_of self.now };

    /// How two keys of one session stand to each other.
    fn order(a: &Self::Rest, b: &Self::Rest) -> Ordering
        ensures { result ≡ rests.cmp a.now b.now };
}
