//! Lanes to which a Resv is sent for a change, and the marks that are used by that.
ghost use Rattle.std.specs.Prelude.{◌≡◌, ◌∷◌, ◌++◌, ℕ, List, []};
ghost use Rattle.std.specs.List.{list_any};
ghost use Rattle.rsvp_base.specs.Table.{keys};
ghost use Rattle.laws_sends.specs.State.{Said};
ghost use Rattle.laws_sends.specs.Before.{lanes_by};
ghost use Rattle.laws_sends.specs.Saying.{SessionLane};
ghost use Rattle.router_state.specs.Whole.{state_of};
ghost use Rattle.resv_sends.specs.Wishes.{AreWanted, lanes_in, new_by, used_seen};

use crate::marks::{has_mark, marked_units};
use crate::units::Units;
use crate::upward::toward;
use path_state::Hops;
use router_state::Tables;
use rsvp_base::{Addr, Session, StyleKind};
use sent_state::LaneTable;

// Whether something goes to a lane that is not what was said there last.
fn is_new(
    tables: &Tables,
    said: &LaneTable,
    session: Session,
    style: StyleKind,
    hop: (u8, Addr),
) -> bool
    ensures { (c : ℕ) (any : Said) → result ≡ new_by c (state_of tables.now any) said.now session (style, hop) }
{
    let now = toward(tables, session, style, hop);
    !now.is_empty() && !said.is_said(session, style, hop, &now)
}

// Whether that holds of a lane of a style toward one of these hops.
fn is_style_new(
    tables: &Tables,
    said: &LaneTable,
    session: Session,
    style: StyleKind,
    hops: &Hops,
) -> bool
    ensures { (c : ℕ) (any : Said) → result ≡ list_any (new_by c (state_of tables.now any) said.now session) (lanes_in style (keys hops.now)) }
{
    let list = hops.as_slice();
    for i in 0..list.len() {
        if is_new(tables, said, session, style, list[i]) {
            return true;
        }
    }
    false
}

/// Whether a Resv is sent to one of a session's lanes toward these hops for a change: something goes there, and it is not
/// what went there last.
pub fn is_any_new(tables: &Tables, said: &LaneTable, session: Session, hops: &Hops) -> bool
    ensures { (c : ℕ) (any : Said) → result ≡ list_any (new_by c (state_of tables.now any) said.now session) (lanes_by (keys hops.now)) }
{
    is_style_new(tables, said, session, StyleKind::Wild, hops)
        || is_style_new(tables, said, session, StyleKind::Fixed, hops)
        || is_style_new(tables, said, session, StyleKind::Shared, hops)
}

// With the marks that are used by the Resv of a lane, if one is sent there for a change.
fn use_lane(
    tables: &Tables,
    said: &LaneTable,
    session: Session,
    style: StyleKind,
    hop: (u8, Addr),
    used: &mut Units,
)
    requires { AreWanted tables.now session used.old }
    ensures used { (c : ℕ) (any : Said) (es : List SessionLane) → used.old ≡ used_seen c (state_of tables.now any) session said.now es
        → used.new ≡ used_seen c (state_of tables.now any) session said.now (es ++ (style, hop) ∷ []) }
    ensures wanted { AreWanted tables.now session used.new }
{
    // The proof sees here that a session has few wants.
    let _known = tables.wants.of(session);
    if is_new(tables, said, session, style, hop) {
        let marked = marked_units(tables, session, style, hop);
        used.add_all(&marked);
    }
}

// With those that are used by the Resvs of the lanes of a style toward these hops.
fn use_style(
    tables: &Tables,
    said: &LaneTable,
    session: Session,
    style: StyleKind,
    hops: &Hops,
    used: &mut Units,
)
    requires { AreWanted tables.now session used.old }
    ensures used { (c : ℕ) (any : Said) (es : List SessionLane) → used.old ≡ used_seen c (state_of tables.now any) session said.now es
        → used.new ≡ used_seen c (state_of tables.now any) session said.now (es ++ lanes_in style (keys hops.now)) }
    ensures wanted { AreWanted tables.now session used.new }
{
    let list = hops.as_slice();
    for i in 0..list.len() {
        use_lane(tables, said, session, style, list[i], used);
    }
}

/// The units of the session's wants whose marks are used when Resvs go to its lanes toward these hops, by what went there
/// last: those that take part in a Resv that is sent for a change (RFC 2205, 2.6).
pub fn used_marks(tables: &Tables, said: &LaneTable, session: Session, hops: &Hops) -> Units
    ensures { (c : ℕ) (any : Said) → result ≡ used_seen c (state_of tables.now any) session said.now (lanes_by (keys hops.now)) }
{
    let mut used = Units::new();
    if !has_mark(tables, session) {
        return used;
    }
    use_style(tables, said, session, StyleKind::Wild, hops, &mut used);
    use_style(tables, said, session, StyleKind::Fixed, hops, &mut used);
    use_style(tables, said, session, StyleKind::Shared, hops, &mut used);
    used
}
