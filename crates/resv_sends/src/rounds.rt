//! The lanes of a session, one after another.
ghost use Rattle.std.specs.Prelude.{◌≡◌, ℕ, fold, true, nat_lt, Some};
ghost use Rattle.std.specs.List.{flat_map};
ghost use Rattle.rsvp_base.specs.Table.{empty, get, keys, size};
ghost use Rattle.router_rules.specs.Known.{Lane};
ghost use Rattle.style_rules.specs.Lines.{NextHop};
ghost use Rattle.style_rules.specs.Merge.{PartTable};
ghost use Rattle.laws_sends.specs.State.{Said, facts_of};
ghost use Rattle.laws_sends.specs.Before.{lanes_by};
ghost use Rattle.laws_sends.specs.Saying.{IsRoomy, IsTold};
ghost use Rattle.laws_sends.specs.SendsHere.{hops_in};
ghost use Rattle.router_state.specs.Whole.{state_of};
ghost use Rattle.resv_sends.specs.Rounds.{lanes_of, renewed_by, told_by, torn_by};

use crate::lane_sends::{Lane, Occasion, refresh_lane, tell_lane, tell_torn};
use path_state::Hops;
use router_rules::Outbox;
use router_state::Tables;
use rsvp_base::{Addr, Session, StyleKind};
use sent_state::LaneTable;

// The ResvTear of a lane, of what was said there. Where that is nothing, what goes there is not worked out.
fn tear_lane<O: Outbox>(
    tables: &Tables,
    said: &LaneTable,
    session: Session,
    style: StyleKind,
    hop: (u8, Addr),
    out: &mut O,
)
    ensures { (c : ℕ) (any : Said) → out.new ≡ fold O.posted out.old (torn_by c (state_of tables.now any) said.now session (style, hop)) }
{
    let Some(was) = said.find(session, style, hop) else {
        return;
    };
    tell_torn(tables, session, style, hop, was, out);
}

// The ResvTears of the lanes of a style toward these hops, of what was said there.
fn tear_style<O: Outbox>(
    tables: &Tables,
    said: &LaneTable,
    session: Session,
    style: StyleKind,
    hops: &Hops,
    out: &mut O,
)
    ensures { (c : ℕ) (any : Said) → out.new ≡ fold O.posted out.old (flat_map (torn_by c (state_of tables.now any) said.now session) (lanes_of style (keys hops.now))) }
{
    let list = hops.as_slice();
    for i in 0..list.len() {
        tear_lane(tables, said, session, style, list[i], out);
    }
}

/// The ResvTears of a session's lanes toward these hops, of the last Resv that went there: by style, and then by hop.
pub fn tear_lanes<O: Outbox>(
    tables: &Tables,
    said: &LaneTable,
    session: Session,
    hops: &Hops,
    out: &mut O,
)
    ensures { (c : ℕ) (any : Said) → out.new ≡ fold O.posted out.old (flat_map (torn_by c (state_of tables.now any) said.now session) (lanes_by (keys hops.now))) }
{
    tear_style(tables, said, session, StyleKind::Wild, hops, out);
    tear_style(tables, said, session, StyleKind::Fixed, hops, out);
    tear_style(tables, said, session, StyleKind::Shared, hops, out);
}

// The Resvs of the lanes of a style toward the session's hops, where they changed or are due; what goes there is kept as said.
fn tell_style<O: Outbox>(
    tables: &Tables,
    said: &mut LaneTable,
    session: Session,
    style: StyleKind,
    hops: &Hops,
    occasion: Occasion,
    out: &mut O,
)
    requires near { (c : ℕ) → hops.now ≡ hops_in (facts_of c (state_of tables.now empty)) session }
    requires roomy { IsRoomy (state_of tables.now empty) said.old }
    ensures sent { (c : ℕ) (any : Said)
        → out.new ≡ fold O.posted out.old (flat_map (told_by c (state_of tables.now any) occasion.asked occasion.due said.old session) (lanes_of style (keys hops.now))) }
    ensures told { IsTold (state_of tables.now said.old) session (lanes_of style (keys hops.now)) said.new }
    ensures roomy { IsRoomy (state_of tables.now empty) said.new }
{
    tables.paths.limits();
    let list = hops.as_slice();
    for i in 0..list.len() {
        let lane = Lane {
            session,
            style,
            hop: list[i],
        };
        tell_lane(tables, said, lane, occasion, out);
    }
}

/// The Resvs of a session's lanes, where they changed or are due: by style, and then by hop. What goes there is kept as
/// sent last. Those that are sent for a change ask to confirm whom `asked` names, if it names someone, else the node for its
/// marked wants. The hops are those of the session, and what is kept from before is of lanes from which a path comes.
pub fn tell_lanes<O: Outbox>(
    tables: &Tables,
    said: &mut LaneTable,
    session: Session,
    hops: &Hops,
    asked: Option<Addr>,
    due: bool,
    out: &mut O,
)
    requires near { (c : ℕ) → hops.now ≡ hops_in (facts_of c (state_of tables.now empty)) session }
    requires roomy { IsRoomy (state_of tables.now empty) said.old }
    ensures sent { (c : ℕ) (any : Said) → out.new ≡ fold O.posted out.old (flat_map (told_by c (state_of tables.now any) asked due said.old session) (lanes_by (keys hops.now))) }
    ensures told { IsTold (state_of tables.now said.old) session (lanes_by (keys hops.now)) said.new }
    ensures roomy { IsRoomy (state_of tables.now empty) said.new }
{
    let occasion = Occasion { asked, due };
    tell_style(tables, said, session, StyleKind::Wild, hops, occasion, out);
    tell_style(tables, said, session, StyleKind::Fixed, hops, occasion, out);
    tell_style(
        tables,
        said,
        session,
        StyleKind::Shared,
        hops,
        occasion,
        out,
    );
}

// The Resvs of the lanes of a style toward these hops, of what was said there last.
fn refresh_style<O: Outbox>(
    tables: &Tables,
    said: &LaneTable,
    session: Session,
    style: StyleKind,
    hops: &Hops,
    out: &mut O,
)
    ensures { (c : ℕ) (any : Said) → out.new ≡ fold O.posted out.old (flat_map (renewed_by c (state_of tables.now any) said.now session) (lanes_of style (keys hops.now))) }
{
    let list = hops.as_slice();
    for i in 0..list.len() {
        let lane = Lane {
            session,
            style,
            hop: list[i],
        };
        refresh_lane(tables, said, lane, out);
    }
}

/// The Resvs of a session's lanes toward these hops, as the last one that went there, as those of a session that is due: by style,
/// and then by hop. What goes there is not worked out.
pub fn refresh_lanes<O: Outbox>(
    tables: &Tables,
    said: &LaneTable,
    session: Session,
    hops: &Hops,
    out: &mut O,
)
    ensures { (c : ℕ) (any : Said) → out.new ≡ fold O.posted out.old (flat_map (renewed_by c (state_of tables.now any) said.now session) (lanes_by (keys hops.now))) }
{
    refresh_style(tables, said, session, StyleKind::Wild, hops, out);
    refresh_style(tables, said, session, StyleKind::Fixed, hops, out);
    refresh_style(tables, said, session, StyleKind::Shared, hops, out);
}
