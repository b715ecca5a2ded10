//! ResvTears and Resvs of a lane.
ghost use Rattle.std.specs.Prelude.{◌≡◌, ◌<◌, ℕ, false, fold};
ghost use Rattle.rsvp_base.specs.Table.{has, size};
ghost use Rattle.sent_state.specs.Lanes.{lane_at, said_at, told};
ghost use Rattle.laws_sends.specs.State.{Said};
ghost use Rattle.laws_sends.specs.Saying.{ask_seen, told_seen, torn_seen, wish_seen};
ghost use Rattle.laws_sends.specs.Seen.{toward_at};
ghost use Rattle.router_rules.specs.Asking.{ask_of};
ghost use Rattle.router_state.specs.Whole.{state_of};
ghost use Rattle.resv_sends.specs.Rounds.{renewed_seen, told_parts};

use crate::marks::own_wish;
use crate::upward::{hop_to, is_idle, names_via, toward};
use router_rules::Outbox;
use router_state::Tables;
use rsvp_base::{Addr, Session, StyleKind};
use rsvp_messages::{Message, ResvMsg, ResvTearMsg};
use sent_state::{LaneTable, ask_of, gone_among, tear_of};
use style_rules::Parts;

/// Where Resvs go: the lane of a session and a style toward a previous hop.
#[derive(Clone, Copy)]
pub(crate) struct Lane {
    pub session: Session,
    pub style: StyleKind,
    pub hop: (u8, Addr),
}

/// Why the Resvs of a session are looked at: whom the message that made a change asks to confirm, if it asks somebody, and
/// whether a refresh is due.
#[derive(Clone, Copy)]
pub(crate) struct Occasion {
    pub asked: Option<Addr>,
    pub due: bool,
}

/// The ResvTear of a lane to which these parts went before: of the names of the units that go there no more, those via the
/// hop, if there are some (RFC 2205, 3.1.6).
pub fn tell_torn<O: Outbox>(
    tables: &Tables,
    session: Session,
    style: StyleKind,
    hop: (u8, Addr),
    was: &Parts,
    out: &mut O,
)
    ensures { (c : ℕ) (said : Said) → out.new ≡ fold O.posted out.old (torn_seen c (state_of tables.now said) (lane_at (session, (style, hop))) was.now) }
{
    let now = toward(tables, session, style, hop);
    let among = names_via(tables, session, style, hop);
    let names = gone_among(was, &now, &among);
    if names.is_empty() {
        return;
    }
    let message = ResvTearMsg {
        session,
        hop: hop_to(tables, session, hop),
        tear: tear_of(style, names),
    };
    out.post(hop.0, hop.1, &Message::ResvTear(message), false);
}

// Whom a Resv of a lane that is told for a change asks to confirm: whom the message that made the change says, if it says
// someone, else the node itself for its marked wants (RFC 2205, 2.6).
fn wish_for(tables: &Tables, lane: Lane, asked: Option<Addr>) -> Option<Addr>
    ensures { (c : ℕ) (said : Said) → result ≡ wish_seen c (state_of tables.now said) (lane_at (lane.session, (lane.style, lane.hop))) asked }
{
    match asked {
        Some(addr) => Some(addr),
        None => own_wish(tables, lane.session, lane.style, lane.hop),
    }
}

// The Resv of a lane that asks for these parts, if they ask for something, with whom it asks to confirm.
fn tell_ask<O: Outbox>(
    tables: &Tables,
    lane: Lane,
    parts: &Parts,
    wish: Option<Addr>,
    due: bool,
    out: &mut O,
)
    ensures { (c : ℕ) (said : Said) → out.new ≡ fold O.posted out.old (ask_seen c (state_of tables.now said) (lane_at (lane.session, (lane.style, lane.hop))) wish due (ask_of lane.style parts.now)) }
{
    let Some(ask) = ask_of(lane.style, parts) else {
        return;
    };
    let message = ResvMsg {
        session: lane.session,
        hop: hop_to(tables, lane.session, lane.hop),
        period: tables.config.period(),
        confirm: wish,
        ask,
    };
    out.post(lane.hop.0, lane.hop.1, &Message::Resv(message), due);
}

// The Resv of a lane that asks for these parts, where they are new or due.
fn tell_changed<O: Outbox>(
    tables: &Tables,
    lane: Lane,
    parts: &Parts,
    occasion: Occasion,
    new: bool,
    out: &mut O,
)
    ensures { (c : ℕ) (said : Said)
        → out.new ≡ fold O.posted out.old (told_parts c (state_of tables.now said) (lane_at (lane.session, (lane.style, lane.hop))) occasion.asked new occasion.due (ask_of lane.style parts.now)) }
{
    if new {
        let wish = wish_for(tables, lane, occasion.asked);
        tell_ask(tables, lane, parts, wish, occasion.due, out);
    } else if occasion.due {
        tell_ask(tables, lane, parts, None, occasion.due, out);
    }
}

/// The Resv of a lane, whole, where what goes there is not what went there last, or where it is due (RFC 2209, 2: RESV REFRESH);
/// what goes there is kept as sent last. One that is sent for a change asks to confirm whom `asked` names, if it names someone,
/// else the node for its marked wants. Of a lane to which nothing went fewer than 1,536 others are there.
pub(crate) fn tell_lane<O: Outbox>(
    tables: &Tables,
    said: &mut LaneTable,
    lane: Lane,
    occasion: Occasion,
    out: &mut O,
)
    requires room { has said.old (lane_at (lane.session, (lane.style, lane.hop))) ≡ false → size said.old < 1536 }
    ensures sent { (c : ℕ) (any : Said)
        → out.new ≡ fold O.posted out.old (told_seen c (state_of tables.now any) (lane_at (lane.session, (lane.style, lane.hop)))
        occasion.asked occasion.due (said_at said.old (lane_at (lane.session, (lane.style, lane.hop))))) }
    ensures said { (c : ℕ) (any : Said) → said.new ≡ told said.old (lane_at (lane.session, (lane.style, lane.hop))) (toward_at c (state_of tables.now any) lane.session lane.style lane.hop) }
{
    if is_idle(tables, lane.session, lane.style) {
        said.forget(lane.session, lane.style, lane.hop);
        return;
    }
    tell_merged(tables, said, lane, occasion, out);
}

// The same where something may go there. It stays out of line: a loop over lanes would clear the room of the parts at each of them,
// and most often a session has one style.
#[inline(never)]
fn tell_merged<O: Outbox>(
    tables: &Tables,
    said: &mut LaneTable,
    lane: Lane,
    occasion: Occasion,
    out: &mut O,
)
    requires room { has said.old (lane_at (lane.session, (lane.style, lane.hop))) ≡ false → size said.old < 1536 }
    ensures sent { (c : ℕ) (any : Said)
        → out.new ≡ fold O.posted out.old (told_seen c (state_of tables.now any) (lane_at (lane.session, (lane.style, lane.hop)))
        occasion.asked occasion.due (said_at said.old (lane_at (lane.session, (lane.style, lane.hop))))) }
    ensures said { (c : ℕ) (any : Said) → said.new ≡ told said.old (lane_at (lane.session, (lane.style, lane.hop))) (toward_at c (state_of tables.now any) lane.session lane.style lane.hop) }
{
    let now = toward(tables, lane.session, lane.style, lane.hop);
    let is_old = said.is_said(lane.session, lane.style, lane.hop, &now);
    tell_changed(tables, lane, &now, occasion, !is_old, out);
    said.tell(lane.session, lane.style, lane.hop, now);
}

// The Resv of a lane, whole, of what was said there last, as that of a lane that is due (RFC 2209, 2: RESV REFRESH).
pub(crate) fn refresh_lane<O: Outbox>(tables: &Tables, said: &LaneTable, lane: Lane, out: &mut O)
    ensures { (c : ℕ) (any : Said)
        → out.new ≡ fold O.posted out.old (renewed_seen c (state_of tables.now any) (lane_at (lane.session, (lane.style, lane.hop)))
        (said_at said.now (lane_at (lane.session, (lane.style, lane.hop))))) }
{
    let Some(was) = said.find(lane.session, lane.style, lane.hop) else {
        return;
    };
    tell_ask(tables, lane, was, None, true, out);
}
