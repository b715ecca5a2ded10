//! The flags of an entry.
ghost use Rattle.std.specs.Prelude.{◌≡◌, ◌&&◌, ℕ, nat_lt, not};
ghost use Rattle.std.specs.List.{list_any};
ghost use Rattle.rsvp_base.specs.Orders.{sessions};
ghost use Rattle.rsvp_base.specs.Under.{under};
ghost use Rattle.rsvp_base.specs.declared.style.StyleKind.TheVariants as kind;
ghost use Rattle.resv_state.specs.Walks.{rests};
ghost use Rattle.router_rules.specs.Requests.{is_style};
ghost use Rattle.router_state.specs.State.{Said, table_in};
ghost use Rattle.router_state.specs.Whole.{state_of};
ghost use Rattle.traffic_control.specs.Policing.{passes_by, police_seen};

use crate::beside::is_passed;
use crate::matching::count;
use router_rules::Police;
use router_state::Tables;
use rsvp_base::{EntryKey, Part, Session, StyleKind, Unit};

/// The flags with which an entry of an interface's book is handed to traffic control (RFC 2205, 3.8). E: a sender that it
/// names asked for policing here. M: several senders share it. B: another reservation that some of its senders reach has a
/// flow for which its own cannot stand.
pub fn police_at(tables: &Tables, iface: u8, key: &EntryKey, part: &Part) -> Police
    ensures { (c : ℕ) (said : Said) → result ≡ police_seen c (state_of tables.now said) iface key.now part.now }
{
    let session = key.session;
    let style = key.style;
    let config = &tables.config;
    let paths = &tables.paths;
    let matching = count(config, paths, session, style, iface, part, false);
    let marked = count(config, paths, session, style, iface, part, true);
    let passed = passed_by(tables, style, session, key.unit, iface, part);
    flags(style, marked, matching, passed)
}

// Whether a reservation of the style passes the entry by.
fn passed_by(
    tables: &Tables,
    style: StyleKind,
    session: Session,
    unit: Unit,
    iface: u8,
    part: &Part,
) -> bool
    ensures { (said : Said) → result ≡ list_any (passes_by iface unit part.now) (under sessions rests (table_in style (state_of tables.now said)) session).rows }
{
    match style {
        StyleKind::Wild => is_passed(&tables.wild, session, unit, iface, part),
        StyleKind::Fixed => is_passed(&tables.fixed, session, unit, iface, part),
        StyleKind::Shared => is_passed(&tables.shared, session, unit, iface, part),
    }
}

// The flags where so many of the matching paths are marked, and so many match.
fn flags(style: StyleKind, marked: usize, matching: usize, passed: bool) -> Police
    ensures { result ≡ record { e = nat_lt 0 marked; m = not (is_style style kind.Fixed) && nat_lt 1 matching; b = passed } }
{
    Police {
        e: 0 < marked,
        m: style != StyleKind::Fixed && 1 < matching,
        b: passed,
    }
}
