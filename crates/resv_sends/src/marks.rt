//! Marks of local wants.
ghost use Rattle.std.specs.Prelude.{◌≡◌, ◌&&◌, ◌≤◌, ℕ, Some};
ghost use Rattle.std.specs.List.{list_any};
ghost use Rattle.rsvp_base.specs.Orders.{sessions, units};
ghost use Rattle.rsvp_base.specs.Table.{changed, get, keys};
ghost use Rattle.rsvp_base.specs.Under.{under};
ghost use Rattle.local_state.specs.Wants.{asked_row};
ghost use Rattle.laws_sends.specs.State.{Said};
ghost use Rattle.laws_sends.specs.Seen.{lane_of};
ghost use Rattle.router_state.specs.Whole.{state_of};
ghost use Rattle.laws_sends.specs.Marks.{unmarked_in};
ghost use Rattle.resv_sends.specs.Taking.{is_marked_in, marked_in, requests_of, takes_as};
ghost use Rattle.resv_sends.specs.Wishes.{marked_seen, wish_seen};

use crate::opening::has_open;
use crate::taking::asked_toward;
use crate::units::Units;
use crate::upward::names_via;
use local_state::{LocalWant, LocalWants};
use path_sends::upstream;
use router_state::Tables;
use rsvp_base::{Addr, Part, Session, StyleKind};
use style_rules::{Parts, Upstream};

// Whether a part of a want takes part in what goes there: it is not blockaded, or no request of its unit is open.
fn takes_part(
    tables: &Tables,
    session: Session,
    style: StyleKind,
    up: &Upstream,
    own: &Parts,
    part: &Part,
) -> bool
    ensures { result ≡ takes_as style (requests_of style tables.now session up.now own.now) up.now (Some part.now) }
{
    match asked_toward(style, part, up, None) {
        Some(ask) => { !ask.blockaded || !has_open(tables, session, style, up, own, ask.unit) }
        None => false,
    }
}

// Whether a want is to be confirmed, and takes part in what goes there.
fn is_marked(
    tables: &Tables,
    session: Session,
    style: StyleKind,
    up: &Upstream,
    own: &Parts,
    want: &LocalWant,
) -> bool
    ensures { result ≡ is_marked_in style (requests_of style tables.now session up.now own.now) up.now own.now (asked_row want.now) }
{
    if !want.confirm {
        return false;
    }
    match own.get(want.unit) {
        Some(part) => takes_part(tables, session, style, up, own, part),
        None => false,
    }
}

// The units of the session's wants that are to be confirmed and take part.
fn marked_among(
    tables: &Tables,
    session: Session,
    style: StyleKind,
    up: &Upstream,
    own: &Parts,
) -> Units
    ensures { keys result ≡ marked_in style (requests_of style tables.now session up.now own.now) up.now own.now (under sessions units tables.now.wants session).rows }
{
    let wants = tables.wants.of(session);
    let mut marked = Units::new();
    for i in 0..wants.len() {
        let want = &wants[i];
        if is_marked(tables, session, style, up, own, want) {
            marked.add(want.unit);
        }
    }
    marked
}

// Whether one of the session's wants is to be confirmed.
pub(crate) fn has_mark(tables: &Tables, session: Session) -> bool
    ensures { result ≡ list_any (λ e. e.1.confirm) (under sessions units tables.now.wants session).rows }
{
    is_any_marked(tables.wants.of(session))
}

fn is_any_marked(wants: &[LocalWant]) -> bool
    ensures { result ≡ list_any (λ w. w.confirm) wants.now }
{
    wants.iter().any(|want| want.confirm)
}

/// The units of the session's wants that are to be confirmed and take part in what goes to a previous hop, of a style, in
/// order (RFC 2205, 2.6 and 3.5): a want takes part where it asks for something there and is not blockaded, or where all
/// requests of its unit are.
pub fn marked_units(tables: &Tables, session: Session, style: StyleKind, hop: (u8, Addr)) -> Units
    ensures { (c : ℕ) (said : Said) → keys result ≡ marked_seen c (state_of tables.now said) (lane_of session style hop) }
{
    if !has_mark(tables, session) {
        return Units::new();
    }
    let up = upstream(
        &tables.config,
        &tables.paths,
        &tables.walls,
        session,
        style,
        hop,
    );
    let names = names_via(tables, session, style, hop);
    let own = tables.wants.own(session, style, &names);
    marked_among(tables, session, style, &up, &own)
}

/// Whom a Resv that goes to a previous hop for a change asks to confirm, where the message that made it names nobody: the
/// node itself, by its own address there. `None` exactly where no want that is to be confirmed takes part.
pub fn own_wish(
    tables: &Tables,
    session: Session,
    style: StyleKind,
    hop: (u8, Addr),
) -> Option<Addr>
    ensures { (c : ℕ) (said : Said) → result ≡ wish_seen c (state_of tables.now said) (lane_of session style hop) }
{
    if marked_units(tables, session, style, hop).is_empty() {
        return None;
    }
    Some(tables.config.own(hop.0))
}

// The wants of these units of a session are no longer to be confirmed.
fn unmark_all(wants: &mut LocalWants, session: Session, units: &Units)
    ensures { wants.new ≡ changed (unmarked_in session units.now) wants.old }
{
    let list = units.as_slice();
    for i in 0..list.len() {
        wants.unmark(session, list[i]);
    }
}

/// The wants of these units of a session are no longer to be confirmed: their marks were used.
pub fn unmark(tables: &mut Tables, session: Session, units: &Units)
    ensures { tables.new ≡ record tables.old { wants = changed (unmarked_in session units.now) tables.old.wants } }
{
    unmark_all(&mut tables.wants, session, units);
}
