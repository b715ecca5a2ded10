//! Whether a reservation that stands is the one that is asked for.
ghost use Rattle.std.specs.Prelude.{◌≡◌, ◌↔◌, IsTrue};
ghost use Rattle.resv_state.specs.Resvs.{wish_kept};

use crate::fact::ResvFact;
use rsvp_base::{Addr, Part};
use style_rules::Style;

// Whether a reservation is of a part, and a wish for a confirmation leaves it as it is.
pub(crate) fn is_asked<S: Style>(fact: &ResvFact, part: &Part, confirm: Option<Addr>) -> bool
    ensures { IsTrue result ↔ ((fact.now.part ≡ part.now) × (fact.now.confirm ≡ wish_kept confirm fact.now.confirm)) }
{
    keeps_wish(confirm, fact.confirm) && is_same::<S>(&fact.part, part)
}

// Whether a wish leaves the one that stands.
fn keeps_wish(wish: Option<Addr>, stands: Option<Addr>) -> bool
    ensures { IsTrue result ↔ (stands ≡ wish_kept wish stands) }
{
    match wish {
        Some(addr) => stands == Some(addr),
        None => true,
    }
}

// Whether two parts are one.
fn is_same<S: Style>(a: &Part, b: &Part) -> bool
    ensures { IsTrue result ↔ (a.now ≡ b.now) }
{
    S::le(a, b) && S::le(b, a)
}
