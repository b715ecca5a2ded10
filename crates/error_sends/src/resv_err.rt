//! ResvErrs set blockades and go on.
ghost use Rattle.std.specs.Prelude.{◌≡◌, ◌==◌, ◌≤◌, ℕ, false, fold};
ghost use Rattle.std.specs.Int.{bit_at};
ghost use Rattle.std.specs.List.{list_any};
ghost use Rattle.std.specs.Option.{option_map};
ghost use Rattle.std.specs.Ordering.{eq_by_cmp};
ghost use Rattle.rsvp_base.specs.Orders.{sessions};
ghost use Rattle.rsvp_base.specs.Table.{get, values};
ghost use Rattle.rsvp_base.specs.Under.{under};
ghost use Rattle.style_rules.specs.Targets.{WallKey};
ghost use Rattle.style_rules.specs.Toward.{is_walled};
ghost use Rattle.resv_state.specs.Walks.{rests};
ghost use Rattle.router_rules.specs.Facts.{paths_in};
ghost use Rattle.router_rules.specs.Known.{came_by};
ghost use Rattle.laws_sends.specs.State.{State, facts_of, table_in};
ghost use Rattle.error_sends.specs.Going.{error_row, errors_told, going_row, is_held_back, is_way_held};
ghost use Rattle.error_sends.specs.ResvErrs.{resv_err_facts, resv_err_heard, resv_err_sent};

use crate::outgoing::{Outgoing, hold, post_last};
use crate::pass::passes_on;
use crate::walls::set_walls;
use blockade_state::Blockades;
use path_sends::upstream;
use path_state::PathTable;
use resv_state::{ResvFact, ResvTable};
use router_rules::{Heard, Outbox, Why};
use router_state::{Config, Tables};
use rsvp_base::{Addr, Flow, Hop, Sender, Session, StyleKind};
use rsvp_messages::{Message, ResvErrMsg};
use soft_table::Finger;
use style_rules::{Style, Upstream, Wall};

// At most so many reservations of a style.
pub(crate) const FACTS: usize = 1024;

/// A ResvErr arrives by an interface (RFC 2205, 3.1.8 and 3.5; RFC 2209, 2: RESV ERROR MESSAGE ARRIVES). Where a previous hop
/// of its session sent it, it sets the blockades that an admission control failure asks for, if all have room. Else nothing
/// changes. No blockade of another session changes.
pub fn set_blockades(
    config: &Config,
    paths: &PathTable,
    walls: &mut Blockades,
    iface: u8,
    message: &ResvErrMsg,
) -> Heard
    ensures heard { (c : ℕ) (n : State) → n.place ≡ config.now → n.paths ≡ paths.now.facts → n.walls ≡ walls.old → result ≡ resv_err_heard c n iface message.now }
    ensures facts { (c : ℕ) (n : State) → n.place ≡ config.now → n.paths ≡ paths.now.facts → n.walls ≡ walls.old → facts_of c (record n { walls = walls.new }) ≡ resv_err_facts c n iface message.now }
    ensures others { (j : WallKey) → eq_by_cmp sessions.cmp message.now.session j.0 ≡ false → get walls.old j ≡ get walls.new j }
{
    if !is_previous_hop(paths, message.session, (iface, message.hop.addr)) {
        return Heard::Dropped(Why::NoState);
    }
    if !set_walls(config, walls, iface, message) {
        return Heard::Dropped(Why::Full);
    }
    Heard::Taken
}

/// A ResvErr that was taken goes on, once its blockades are set: one to each next hop whose reservations it concerns; where a
/// smaller reservation stands, only to those that are blockaded. One that was not taken goes nowhere. The blockades are those
/// that `set_blockades` left, and what was heard is its answer.
pub fn pass_resv_err<O: Outbox>(
    tables: &Tables,
    heard: Heard,
    iface: u8,
    message: &ResvErrMsg,
    out: &mut O,
)
    ensures { (c : ℕ) (n : State) → n.place ≡ tables.now.config → n.paths ≡ tables.now.paths.facts → n.wild ≡ tables.now.wild.facts
        → n.fixed ≡ tables.now.fixed.facts → n.shared ≡ tables.now.shared.facts → heard ≡ resv_err_heard c n iface message.now
        → facts_of c (record n { walls = tables.now.walls }) ≡ resv_err_facts c n iface message.now
        → out.new ≡ fold O.posted out.old (resv_err_sent c n iface message.now) }
{
    let Heard::Taken = heard else {
        return;
    };
    let hop = (iface, message.hop.addr);
    let up = upstream(
        &tables.config,
        &tables.paths,
        &tables.walls,
        message.session,
        message.blame.style,
        hop,
    );
    tell_by_style(tables, &up, message, out);
}

// The errors that go on to the next hops of the reservations of the error's style.
fn tell_by_style<O: Outbox>(tables: &Tables, up: &Upstream, message: &ResvErrMsg, out: &mut O)
    ensures { (n : State) → n.wild ≡ tables.now.wild.facts → n.fixed ≡ tables.now.fixed.facts → n.shared ≡ tables.now.shared.facts
        → out.new ≡ fold O.posted out.old (errors_told tables.now.config up.now message.now message.now.blame.style
        (under sessions rests (table_in message.now.blame.style n) message.now.session).rows) }
{
    match message.blame.style {
        StyleKind::Wild => tell_errors(&tables.config, &tables.wild, up, message, out),
        StyleKind::Fixed => tell_errors(&tables.config, &tables.fixed, up, message, out),
        StyleKind::Shared => tell_errors(&tables.config, &tables.shared, up, message, out),
    }
}

// Whether a path of the session comes from a hop.
fn is_previous_hop(paths: &PathTable, session: Session, hop: (u8, Addr)) -> bool
    ensures { (c : ℕ) (n : State) → n.paths ≡ paths.now.facts → result ≡ list_any (came_by hop) (values (paths_in (facts_of c n) session)) }
{
    // The proof sees here that each path stands under its own sender.
    paths.limits();
    !paths.senders_via(session, hop.0, hop.1).is_empty()
}

// The errors that go on to the next hops of a style's reservations.
fn tell_errors<S: Style, O: Outbox>(
    config: &Config,
    table: &ResvTable<S>,
    up: &Upstream,
    message: &ResvErrMsg,
    out: &mut O,
)
    ensures { out.new ≡ fold O.posted out.old (errors_told config.now up.now message.now S.kind_is (under sessions rests table.now.facts message.now.session).rows) }
{
    // The proof sees here what holds of every table.
    table.limits();
    let mut last = None;
    let mut finger = Finger::default();
    let mut next = table.first(message.session);
    for k in 0..FACTS {
        let Some(fact) = next else {
            post_last(last, out);
            return;
        };
        let more = error_of::<S>(config, up, message, fact);
        last = hold(last, more, out);
        next = table.after(fact, &mut finger);
    }
    post_last(last, out);
}

// The error that goes on to the next hop of a reservation, if one does.
fn error_of<S: Style>(
    config: &Config,
    up: &Upstream,
    message: &ResvErrMsg,
    fact: &ResvFact,
) -> Option<Outgoing>
    ensures { option_map going_row result ≡ error_row config.now up.now message.now S.kind_is (fact.now.iface, fact.now.next) fact.now.part }
{
    let held = is_held_back(up, fact);
    let Some(blame) = passes_on(&message.err, &message.blame, S::kind(), &fact.part, held) else {
        return None;
    };
    let error = ResvErrMsg {
        session: message.session,
        hop: Hop {
            addr: config.own(fact.iface),
            handle: 0,
        },
        err: message.err,
        blame,
    };
    Some(Outgoing {
        iface: fact.iface,
        dst: fact.next,
        message: Message::ResvErr(error),
    })
}

// Whether a reservation is blockaded toward the hop from which these names come.
fn is_held_back(up: &Upstream, fact: &ResvFact) -> bool
    ensures { result ≡ is_held_back up.now fact.now.iface fact.now.part }
{
    fact.part
        .senders
        .as_slice()
        .iter()
        .any(|name| is_way_held(fact.iface, &fact.part.flow, up, *name))
}

// Whether a name's tree goes out of the interface, and its blockade keeps the flow back.
fn is_way_held(iface: u8, flow: &Flow, up: &Upstream, name: Sender) -> bool
    ensures { result ≡ is_way_held iface flow.now (get up.now name) }
{
    match up.get(name) {
        Some(line) => is_out(line.outward, iface) && is_walled(flow, line.wall),
        None => false,
    }
}

// Whether a blockade keeps a flow back.
fn is_walled(asked: &Flow, wall: Option<Wall>) -> bool
    ensures { result ≡ is_walled asked.now wall }
{
    match wall {
        Some(wall) => flow_merge::blockades(&wall.flow, wall.sub, asked),
        None => false,
    }
}

// Whether a set of interfaces has this one.
fn is_out(ways: u16, iface: u8) -> bool
    ensures { result ≡ (bit_at ways iface == 1) }
{
    iface < 16 && (ways >> iface) & 1 == 1
}
