//! A node's routes move.
ghost use Rattle.std.specs.Prelude.{◌≡◌, ℕ, fold};
ghost use Rattle.std.specs.List.{flat_map};
ghost use Rattle.rsvp_base.specs.Table.{empty, keys};
ghost use Rattle.router_rules.specs.Inputs.{Moved};
ghost use Rattle.router_rules.specs.Rule.{facts_after, sent_after};
ghost use Rattle.router_state.specs.Routes.{AreRoutes};
ghost use Rattle.router_state.specs.State.{IsSaid, IsSettled, facts_of};
ghost use Rattle.laws_sends.specs.Told.{offered as offer_of};
ghost use Rattle.router_state.specs.Whole.{state_of};
ghost use Rattle.router_aging.specs.Steps.{AreSound};
ghost use Rattle.router_rounds.specs.RouteRounds.{new_ways, torn_ways};
ghost use Rattle.router_rounds.specs.SenderMoves.{new_of, torn_of};

use crate::nears::Nears;
use crate::rooms::Rooms;
use crate::rounds::{tear_all, tell_all};
use blockade_state::Touched;
use path_sends::{tell_gone_ways, tell_new_ways};
use resv_sends::offered;
use router_aging::KnownSenders;
use router_rules::{Outbox, Route};
use router_state::{Config, Tables, ways_by};
use rsvp_base::{Sender, Session};
use sent_state::LaneTable;

// The PathTears of a sender, by the interfaces by which its tree went on by the old routes and goes on no more.
fn tear_sender<O: Outbox>(
    config: &Config,
    old: &[Route],
    session: Session,
    sender: Sender,
    out: &mut O,
)
    requires { AreRoutes old.now }
    ensures { out.new ≡ fold O.posted out.old (torn_of (record config.now { routes = old.now }) config.now (session, sender)) }
{
    let ways = ways_by(old, session, sender);
    tell_gone_ways(config, session, sender, ways, out);
}

// Those of the known senders of a session.
fn tear_session<O: Outbox>(tables: &Tables, old: &[Route], session: Session, out: &mut O)
    requires { AreRoutes old.now }
    ensures { (c : ℕ) → out.new ≡ fold O.posted out.old (torn_ways (record tables.now.config { routes = old.now }) c (state_of tables.now empty) session) }
{
    let known = KnownSenders::of(&tables.senders, &tables.paths, session);
    let list = known.as_slice();
    for i in 0..list.len() {
        tear_sender(&tables.config, old, session, list[i], out);
    }
}

// Those of all sessions.
fn tear_ways<O: Outbox>(tables: &Tables, old: &[Route], nears: &Nears, out: &mut O)
    requires { AreRoutes old.now }
    ensures { (c : ℕ) → out.new ≡ fold O.posted out.old (flat_map (torn_ways (record tables.now.config { routes = old.now }) c (state_of tables.now empty)) (keys nears.now)) }
{
    let list = nears.as_slice();
    for i in 0..list.len() {
        tear_session(tables, old, list[i].session, out);
    }
}

// The Paths of a sender, if it is known, by the interfaces by which its tree goes on and did not by the old routes.
fn tell_sender<O: Outbox>(
    tables: &Tables,
    old: &[Route],
    session: Session,
    sender: Sender,
    out: &mut O,
)
    requires { AreRoutes old.now }
    ensures { (c : ℕ)
        → out.new ≡ fold O.posted out.old
        (new_of (record tables.now.config { routes = old.now }) tables.now.config (session, sender) (offer_of (facts_of c (state_of tables.now empty)) (session, sender))) }
{
    let Some(offer) = offered(tables, session, sender) else {
        return;
    };
    let ways = ways_by(old, session, sender);
    tell_new_ways(&tables.config, session, sender, &offer, ways, out);
}

// Those of the known senders of a session.
fn tell_session<O: Outbox>(tables: &Tables, old: &[Route], session: Session, out: &mut O)
    requires { AreRoutes old.now }
    ensures { (c : ℕ) → out.new ≡ fold O.posted out.old (new_ways (record tables.now.config { routes = old.now }) c (state_of tables.now empty) session) }
{
    let known = KnownSenders::of(&tables.senders, &tables.paths, session);
    let list = known.as_slice();
    for i in 0..list.len() {
        tell_sender(tables, old, session, list[i], out);
    }
}

// Those of all sessions.
fn tell_ways<O: Outbox>(tables: &Tables, old: &[Route], nears: &Nears, out: &mut O)
    requires { AreRoutes old.now }
    ensures { (c : ℕ) → out.new ≡ fold O.posted out.old (flat_map (new_ways (record tables.now.config { routes = old.now }) c (state_of tables.now empty)) (keys nears.now)) }
{
    let list = nears.as_slice();
    for i in 0..list.len() {
        tell_session(tables, old, list[i].session, out);
    }
}

/// Has these routes from now on, in the order of group and source, at most one of each, in place of those that it had, which
/// are handed back (RFC 2209, 2: ROUTE CHANGE NOTIFICATION). Senders are torn by the interfaces by which their trees go on no
/// more, and told by those by which they go on newly; the previous hops are told what changed toward them.
pub fn change_routes<O: Outbox>(
    tables: &mut Tables,
    said: &mut LaneTable,
    rooms: &mut Rooms,
    routes: Vec<Route>,
    out: &mut O,
) -> Vec<Route>
    requires sound { AreSound tables.old }
    requires settled { IsSettled (state_of tables.old said.old) }
    requires said { IsSaid said.old (state_of tables.old said.old) }
    requires routed { AreRoutes routes.items }
    ensures facts { (c : ℕ)
        → facts_of c (state_of tables.new said.new)
        ≡ facts_after tables.old.config (record tables.old.config { routes = routes.items }) c Moved (facts_of c (state_of tables.old said.old)) }
    ensures sent { (c : ℕ) → out.new ≡ fold O.posted out.old (sent_after tables.old.config (record tables.old.config { routes = routes.items }) c Moved (facts_of c (state_of tables.old said.old))) }
    ensures said { IsSaid said.new (state_of tables.new said.new) }
    ensures settled { IsSettled (state_of tables.new said.new) }
    ensures sound { AreSound tables.new }
    ensures place { tables.new.config ≡ record tables.old.config { routes = routes.items } }
    ensures ifaces { tables.new.book.ifaces ≡ tables.old.book.ifaces }
    ensures old { result.items ≡ tables.old.config.routes }
{
    rooms.nears.note(&tables.due, &tables.paths);
    let touched = Touched::new();
    let old = tables.config.reroute(routes);
    tear_ways(tables, old.as_slice(), &rooms.nears, out);
    tear_all(tables, said, &rooms.nears, &[], &touched, out);
    tell_ways(tables, old.as_slice(), &rooms.nears, out);
    tell_all(tables, said, &rooms.nears, &[], &touched, out);
    old
}
