//! Whether a request of a unit toward a previous hop is not blockaded.
ghost use Rattle.std.specs.Prelude.{◌≡◌};
ghost use Rattle.std.specs.List.{list_any};
ghost use Rattle.rsvp_base.specs.Orders.{sessions};
ghost use Rattle.rsvp_base.specs.Under.{under};
ghost use Rattle.resv_state.specs.Walks.{rests};
ghost use Rattle.resv_sends.specs.Taking.{has_open, is_resv_open, is_want_open, requests_of, rows_of};

use crate::taking::{asked_toward, is_open};
use resv_state::ResvTable;
use router_state::Tables;
use rsvp_base::{Part, Session, StyleKind, Unit};
use soft_table::Finger;
use style_rules::{Parts, Style, Upstream};

// At most so many reservations of a style.
pub(crate) const FACTS: usize = 1024;

// Whether a request of the unit, of those of the session's reservations of the style and of its wants, is not blockaded
// toward the hop from which these names come (RFC 2205, 3.5).
pub(crate) fn has_open(
    tables: &Tables,
    session: Session,
    style: StyleKind,
    up: &Upstream,
    own: &Parts,
    unit: Unit,
) -> bool
    ensures { result ≡ has_open style unit (requests_of style tables.now session up.now own.now) }
{
    has_open_want(style, up, own, unit) || has_open_resv(tables, session, style, up, unit)
}

// Whether what a want asks for there is of the unit and not blockaded.
fn is_want_open(style: StyleKind, up: &Upstream, row: &(Unit, Part), unit: Unit) -> bool
    ensures { result ≡ is_want_open style up.now unit row.now }
{
    is_open(unit, asked_toward(style, &row.1, up, None))
}

// Whether that of one of the wants is.
fn has_open_want(style: StyleKind, up: &Upstream, own: &Parts, unit: Unit) -> bool
    ensures { result ≡ list_any (is_want_open style up.now unit) own.now.rows }
{
    own.as_slice()
        .iter()
        .any(|row| is_want_open(style, up, row, unit))
}

// Whether that of one of the session's reservations is.
fn has_open_resv(
    tables: &Tables,
    session: Session,
    style: StyleKind,
    up: &Upstream,
    unit: Unit,
) -> bool
    ensures { result ≡ list_any (is_resv_open style up.now unit) (rows_of style tables.now session) }
{
    match style {
        StyleKind::Wild => is_any_open(&tables.wild, session, up, unit),
        StyleKind::Fixed => is_any_open(&tables.fixed, session, up, unit),
        StyleKind::Shared => is_any_open(&tables.shared, session, up, unit),
    }
}

// The same in the table of a style.
fn is_any_open<S: Style>(table: &ResvTable<S>, session: Session, up: &Upstream, unit: Unit) -> bool
    ensures { result ≡ list_any (is_resv_open S.kind_is up.now unit) (under sessions rests table.now.facts session).rows }
{
    // The proof sees here what holds of every table.
    table.limits();
    let mut finger = Finger::default();
    let mut next = table.first(session);
    for k in 0..FACTS {
        let Some(fact) = next else {
            return false;
        };
        let ask = asked_toward(S::kind(), &fact.part, up, Some(fact.iface));
        if is_open(unit, ask) {
            return true;
        }
        next = table.after(fact, &mut finger);
    }
    false
}
