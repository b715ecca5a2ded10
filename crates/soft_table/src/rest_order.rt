//! The order of rows.
ghost use Rattle.std.specs.Prelude.{◌≡◌};
ghost use Rattle.rsvp_base.specs.Keys.{Keys};

use std::cmp::Ordering;

/// How the rows of one session stand to each other: by the rest of their keys.
pub trait RestOrder {
    /// What tells a row from the others of its session.
    type Rest: Copy;

    ghost rests: { Keys Self.Rest };

    /// How two rests stand to each other.
    fn order(a: &Self::Rest, b: &Self::Rest) -> Ordering
        ensures { result ≡ rests.cmp a.now b.now };
}
