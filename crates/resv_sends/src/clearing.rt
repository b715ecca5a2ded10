//! Lanes from which no path comes any more.
ghost use Rattle.std.specs.Prelude.{◌≡◌};
ghost use Rattle.rsvp_base.specs.Table.{keys};
ghost use Rattle.laws_sends.specs.Before.{lanes_by};
ghost use Rattle.laws_sends.specs.Saying.{IsCleared};
ghost use Rattle.router_state.specs.Whole.{state_of};
ghost use Rattle.resv_sends.specs.Rounds.{IsFull, cleared_of, lanes_of};

use path_state::Hops;
use router_state::Tables;
use rsvp_base::{Addr, Session, StyleKind};
use sent_state::LaneTable;

// Forgets what was said to a lane, where no path comes from its hop: of a lane to which something may have been said.
fn clear_said(
    tables: &Tables,
    said: &mut LaneTable,
    session: Session,
    style: StyleKind,
    hop: (u8, Addr),
)
    ensures { said.new ≡ cleared_of tables.now said.old session (style, hop) }
{
    if tables.paths.senders_via(session, hop.0, hop.1).is_empty() {
        said.forget(session, style, hop);
    }
}

// Forgets what was said to a lane, where no path comes from its hop. The hop is not looked up where nothing was said.
fn clear_lane(
    tables: &Tables,
    said: &mut LaneTable,
    session: Session,
    style: StyleKind,
    hop: (u8, Addr),
)
    ensures { said.new ≡ cleared_of tables.now said.old session (style, hop) }
{
    if said.find(session, style, hop).is_some() {
        clear_said(tables, said, session, style, hop);
    }
}

// Forgets what was said to the lanes of a style toward these hops, where no path comes from the hop.
fn clear_style(
    tables: &Tables,
    said: &mut LaneTable,
    session: Session,
    style: StyleKind,
    hops: &Hops,
)
    requires { IsFull said.old }
    ensures { IsCleared (state_of tables.now said.old) session (lanes_of style (keys hops.now)) said.new }
{
    tables.paths.limits();
    let list = hops.as_slice();
    for i in 0..list.len() {
        clear_lane(tables, said, session, style, list[i]);
    }
}

/// Forgets the last Resv of a session's lanes toward these hops, where no path comes from the hop.
pub fn clear_lanes(tables: &Tables, said: &mut LaneTable, session: Session, hops: &Hops)
    requires { IsFull said.old }
    ensures { IsCleared (state_of tables.now said.old) session (lanes_by (keys hops.now)) said.new }
{
    clear_style(tables, said, session, StyleKind::Wild, hops);
    clear_style(tables, said, session, StyleKind::Fixed, hops);
    clear_style(tables, said, session, StyleKind::Shared, hops);
}
