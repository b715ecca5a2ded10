//! What goes toward a previous hop.
ghost use Rattle.std.specs.Prelude.{◌≡◌, ℕ, [], true};
ghost use Rattle.std.specs.List.{list_any};
ghost use Rattle.std.specs.Option.{option_copied};
ghost use Rattle.laws_sends.specs.State.{Said, facts_of};
ghost use Rattle.rsvp_base.specs.Table.{empty, keys};
ghost use Rattle.router_rules.specs.Asking.{first_of};
ghost use Rattle.router_rules.specs.Requests.{is_style};
ghost use Rattle.router_rules.specs.Sends.{handle_for};
ghost use Rattle.style_rules.specs.Lines.{NextHop};
ghost use Rattle.path_state.specs.Paths.{AreByKey};
ghost use Rattle.resv_sends.specs.Handles.{handle_in};
ghost use Rattle.resv_sends.specs.Taking.{rows_of};
ghost use Rattle.laws_sends.specs.Seen.{hop_seen, lane_of, names_seen, own_at, toward_at, up_at};
ghost use Rattle.router_state.specs.Whole.{state_of};

use local_state::LocalWant;
use path_sends::{name_of, upstream};
use path_state::PathFact;
use router_state::Tables;
use rsvp_base::{Addr, Hop, Senders, Session, StyleKind};
use style_rules::{Parts, Upstream};

/// The names via a hop: those under which the style lists the senders whose paths come from there.
pub fn names_via(tables: &Tables, session: Session, style: StyleKind, hop: (u8, Addr)) -> Senders
    ensures { (c : ℕ) (said : Said) → result ≡ names_seen c (state_of tables.now said) session style hop }
{
    tables.paths.limits();
    let via = tables.paths.senders_via(session, hop.0, hop.1);
    let mut names = Senders::new();
    for sender in via.as_slice() {
        let Ok(()) = names.insert(name_of(style, *sender)) else {
            unreachable!();
        };
    }
    names
}

// What the reservations of the style and these wants merge to, toward the names of `up`.
fn merged(
    tables: &Tables,
    session: Session,
    style: StyleKind,
    hop: (u8, Addr),
    up: &Upstream,
    own: &Parts,
) -> Parts
    ensures { (c : ℕ) (said : Said) → up.now ≡ up_at c (state_of tables.now said) session style hop
        → own.now ≡ own_at c (state_of tables.now said) session style hop → result ≡ toward_at c (state_of tables.now said) session style hop }
{
    match style {
        StyleKind::Wild => tables.wild.toward(session, up, own),
        StyleKind::Fixed => tables.fixed.toward(session, up, own),
        StyleKind::Shared => tables.shared.toward(session, up, own),
    }
}

// Whether a session has no reservation of a style.
fn has_no_resv(tables: &Tables, session: Session, style: StyleKind) -> bool
    ensures { result ≡ true → rows_of style tables.now session ≡ [] }
{
    match style {
        StyleKind::Wild => tables.wild.first(session).is_none(),
        StyleKind::Fixed => tables.fixed.first(session).is_none(),
        StyleKind::Shared => tables.shared.first(session).is_none(),
    }
}

// Whether one of these wants is of a style.
fn any_of_style(wants: &[LocalWant], style: StyleKind) -> bool
    ensures { result ≡ list_any (λ w. is_style w.style style) wants.now }
{
    wants.iter().any(|want| want.style == style)
}

/// Whether nothing asks for data in a session and style: it has no want and no reservation of the style.
pub(crate) fn is_idle(tables: &Tables, session: Session, style: StyleKind) -> bool
    ensures { result ≡ true → (c : ℕ) (said : Said) (hop : NextHop) → empty ≡ toward_at c (state_of tables.now said) session style hop }
{
    if any_of_style(tables.wants.of(session), style) {
        return false;
    }
    has_no_resv(tables, session, style)
}

// What goes toward a previous hop, as it is worked out from all that asks for data.
fn worked_out(tables: &Tables, session: Session, style: StyleKind, hop: (u8, Addr)) -> Parts
    ensures { (c : ℕ) (said : Said) → result ≡ toward_at c (state_of tables.now said) session style hop }
{
    let up = upstream(
        &tables.config,
        &tables.paths,
        &tables.walls,
        session,
        style,
        hop,
    );
    let names = names_via(tables, session, style, hop);
    let own = tables.wants.own(session, style, &names);
    merged(tables, session, style, hop, &up, &own)
}

/// What goes toward a previous hop of a session, of a style: of each unit the join of the requests that are not blockaded, or
/// the meet of all where all are (RFC 2205, 2.2 and 3.5).
pub fn toward(tables: &Tables, session: Session, style: StyleKind, hop: (u8, Addr)) -> Parts
    ensures { (c : ℕ) (said : Said) → result ≡ toward_at c (state_of tables.now said) session style hop }
{
    // Most often a session has one style.
    if is_idle(tables, session, style) {
        return Parts::new();
    }
    worked_out(tables, session, style, hop)
}

// The handle that a path's hop gave.
fn handle_of(path: Option<&PathFact>) -> u32
    ensures { result ≡ handle_in (option_copied path.entry) }
{
    match path {
        Some(fact) => fact.hop.handle,
        None => 0,
    }
}

// The handle that the hop gave for the least of these senders. The proof sees beside it that each path stands under its key.
fn handle_for(tables: &Tables, session: Session, via: &Senders) -> u32
    ensures keyed { AreByKey tables.now.paths.facts }
    ensures handle { (c : ℕ) (said : Said) (style : StyleKind) (hop : NextHop) → result ≡ handle_for (facts_of c (state_of tables.now said)) (lane_of session style hop) (first_of (keys via.now)) }
{
    match via.at(0) {
        Some(first) => handle_of(tables.paths.find(session, first)),
        None => {
            tables.paths.limits();
            0
        }
    }
}

/// The RSVP_HOP of what goes toward a previous hop: the node's own address there, and the handle that the hop gave for its
/// least sender.
pub fn hop_to(tables: &Tables, session: Session, hop: (u8, Addr)) -> Hop
    ensures { (c : ℕ) (said : Said) → result ≡ hop_seen c (state_of tables.now said) session hop }
{
    let via = tables.paths.senders_via(session, hop.0, hop.1);
    Hop {
        addr: tables.config.own(hop.0),
        handle: handle_for(tables, session, &via),
    }
}
