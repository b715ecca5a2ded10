//! The style of a session.
ghost use Rattle.std.specs.Prelude.{◌≡◌, ◌&&◌, ℕ, not, nat_lt};
ghost use Rattle.std.specs.List.{list_any};
ghost use Rattle.rsvp_base.specs.Orders.{sessions, units};
ghost use Rattle.rsvp_base.specs.Table.{empty, size, values};
ghost use Rattle.rsvp_base.specs.Under.{under};
ghost use Rattle.resv_state.specs.Walks.{rests};
ghost use Rattle.router_rules.specs.Asking.{has_style, style_conflict};
ghost use Rattle.router_rules.specs.Requests.{is_style};
ghost use Rattle.router_state.specs.State.{Said, facts_of, table_in};
ghost use Rattle.router_state.specs.Whole.{state_of};

use local_state::{LocalWant, LocalWants};
use router_state::Tables;
use rsvp_base::{Session, StyleKind};

/// The style that stands against this one: the first of the others that a reservation or a local want of the session has (RFC
/// 2205, appendix B, error code 05). `None` exactly where none does.
pub(crate) fn style_conflict(
    tables: &Tables,
    session: Session,
    style: StyleKind,
) -> Option<StyleKind>
    ensures { (c : ℕ) (said : Said) → result ≡ style_conflict (facts_of c (state_of tables.now said)) session style }
{
    if stands_against(tables, session, style, StyleKind::Wild) {
        return Some(StyleKind::Wild);
    }
    if stands_against(tables, session, style, StyleKind::Fixed) {
        return Some(StyleKind::Fixed);
    }
    if stands_against(tables, session, style, StyleKind::Shared) {
        return Some(StyleKind::Shared);
    }
    None
}

// Whether a style is another one than this, and the session has it.
fn stands_against(tables: &Tables, session: Session, style: StyleKind, other: StyleKind) -> bool
    ensures { (c : ℕ) (said : Said) → result ≡ (not (is_style other style) && has_style (facts_of c (state_of tables.now said)) session other) }
{
    is_other(other, style) && has_style(tables, session, other)
}

// Whether two styles differ.
fn is_other(a: StyleKind, b: StyleKind) -> bool
    ensures { result ≡ not (is_style a b) }
{
    a != b
}

// Whether a reservation or a local want of the session has the style.
fn has_style(tables: &Tables, session: Session, style: StyleKind) -> bool
    ensures { (c : ℕ) (said : Said) → result ≡ has_style (facts_of c (state_of tables.now said)) session style }
{
    if has_resvs(tables, session, style) {
        return true;
    }
    has_wants(&tables.wants, session, style)
}

// Whether a reservation of the session has the style.
fn has_resvs(tables: &Tables, session: Session, style: StyleKind) -> bool
    ensures { result ≡ nat_lt 0 (size (under sessions rests (table_in style (state_of tables.now empty)) session)) }
{
    match style {
        StyleKind::Wild => tables.wild.first(session).is_some(),
        StyleKind::Fixed => tables.fixed.first(session).is_some(),
        StyleKind::Shared => tables.shared.first(session).is_some(),
    }
}

// Whether a local want of the session has the style.
fn has_wants(wants: &LocalWants, session: Session, style: StyleKind) -> bool
    ensures { result ≡ list_any (λ w. is_style w.style style) (values (under sessions units wants.now session)) }
{
    any_of(wants.of(session), style)
}

// Whether one of these wants has the style.
fn any_of(wants: &[LocalWant], style: StyleKind) -> bool
    ensures { result ≡ list_any (λ w. is_style w.style style) wants.now }
{
    wants.iter().any(|want| want.style == style)
}
