//! Paths and local senders come into the tables.
ghost use Rattle.std.specs.Prelude.{◌≡◌, ◌≤◌, ◌↔◌, [], Some, true, false, cond, IsTrue};
ghost use Rattle.std.specs.Option.{option_map};
ghost use Rattle.rsvp_base.specs.Orders.{senders};
ghost use Rattle.rsvp_base.specs.SessionLimits.{has_room_at};
ghost use Rattle.rsvp_base.specs.Table.{empty, get, has, put_in};
ghost use Rattle.router_rules.specs.NodeConfig.{lifetime};
ghost use Rattle.router_state.specs.Changes.{advertised_put};
ghost use Rattle.router_state.specs.State.{IsSettled};
ghost use Rattle.router_state.specs.Whole.{state_of};
ghost use Rattle.router_arrivals.specs.Coming.{fact_of, is_said_again, path_key, with_path, with_sender};

use adspec_path::same_told;
use path_sends::is_same_flow;
use path_state::{PathFact, copy_of};
use router_state::Tables;
use rsvp_base::{Flow, Sender, Session};
use rsvp_messages::PathMsg;

/// Keeps the path of a sender that a Path speaks of, if there is room for it; its session has a countdown then. Whether there
/// was room.
pub fn learn_path(
    tables: &mut Tables,
    iface: u8,
    message: &PathMsg,
    sender: Sender,
    tspec: Flow,
) -> bool
    requires pulled { tables.old.paths.dead.rows ≡ [] }
    requires settled { IsSettled (state_of tables.old empty) }
    ensures room { result
        ≡ has_room_at senders
        (put_in tables.old.paths.facts (message.now.session, sender) (fact_of iface message.now sender tspec, lifetime tables.old.config message.now.period))
        message.now.session }
    ensures state { state_of tables.new empty
        ≡ cond result
        (with_path (state_of tables.old empty) (message.now.session, sender) (fact_of iface message.now sender tspec) (lifetime tables.old.config message.now.period))
        (state_of tables.old empty) }
    ensures rest { tables.new ≡ record tables.old { senders = tables.new.senders; paths = tables.new.paths; due = tables.new.due } }
    ensures pulled { tables.new.paths.dead.rows ≡ [] }
{
    let (fact, left) = said_of(tables, iface, message, sender, tspec);
    keep_path(tables, fact, left)
}

/// Keeps the path of a sender that a Path speaks of anew, in place of the one that its session and sender have. There is room
/// for it, and its session has a countdown already.
pub fn renew_path(tables: &mut Tables, iface: u8, message: &PathMsg, sender: Sender, tspec: Flow)
    requires pulled { tables.old.paths.dead.rows ≡ [] }
    requires settled { IsSettled (state_of tables.old empty) }
    requires stands { has tables.old.paths.facts (message.now.session, sender) ≡ true }
    ensures room { has_room_at senders
        (put_in tables.old.paths.facts (message.now.session, sender) (fact_of iface message.now sender tspec, lifetime tables.old.config message.now.period))
        message.now.session ≡ true }
    ensures state { state_of tables.new empty
        ≡ with_path (state_of tables.old empty) (message.now.session, sender) (fact_of iface message.now sender tspec) (lifetime tables.old.config message.now.period) }
    ensures rest { tables.new ≡ record tables.old { paths = tables.new.paths } }
    ensures pulled { tables.new.paths.dead.rows ≡ [] }
{
    let (fact, left) = said_of(tables, iface, message, sender, tspec);
    tables.paths.limits();
    tables.paths.renew(fact, left);
}

/// Keeps the path of a sender for as long as a Path says, where the Path says again exactly what is kept of it: the path stays in its
/// place, and its time alone is set. False exactly where it says anything else, or there is no path; nothing changes then.
pub fn repeat_path(
    tables: &mut Tables,
    iface: u8,
    message: &PathMsg,
    sender: Sender,
    tspec: Flow,
) -> bool
    requires pulled { tables.old.paths.dead.rows ≡ [] }
    requires settled { IsSettled (state_of tables.old empty) }
    ensures stands { IsTrue result
        ↔ (option_map (λ e. e.0) (get tables.old.paths.facts (message.now.session, sender)) ≡ Some (fact_of iface message.now sender tspec)) }
    ensures room { result ≡ true → has_room_at senders
        (put_in tables.old.paths.facts (message.now.session, sender) (fact_of iface message.now sender tspec, lifetime tables.old.config message.now.period))
        message.now.session ≡ true }
    ensures state { state_of tables.new empty
        ≡ cond result
        (with_path (state_of tables.old empty) (message.now.session, sender) (fact_of iface message.now sender tspec) (lifetime tables.old.config message.now.period))
        (state_of tables.old empty) }
    ensures rest { tables.new ≡ record tables.old { paths = tables.new.paths } }
    ensures pulled { tables.new.paths.dead.rows ≡ [] }
    ensures unchanged { result ≡ false → tables.new ≡ tables.old }
{
    let life = tables.config.lifetime(message.period);
    tables.paths.limits();
    tables
        .paths
        .renew_if(message.session, sender, life, |fact| {
            is_said_again(fact, iface, message, tspec)
        })
}

// Whether a path is what a Path says of its sender.
fn is_said_again(fact: &PathFact, iface: u8, message: &PathMsg, tspec: Flow) -> bool
    ensures { result ≡ is_said_again iface message.now tspec fact.now }
{
    fact.iface == iface
        && fact.hop.addr == message.hop.addr
        && fact.hop.handle == message.hop.handle
        && is_same_flow(&fact.tspec, &tspec)
        && fact.police == message.police
        && same_told(&fact.adspec, &message.adspec)
}

// What a Path that came by an interface says of its sender, and for how long, in milliseconds.
fn said_of(
    tables: &Tables,
    iface: u8,
    message: &PathMsg,
    sender: Sender,
    tspec: Flow,
) -> (PathFact, u32)
    ensures fact { result.0 ≡ fact_of iface message.now sender tspec }
    ensures left { result.1 ≡ lifetime tables.now.config message.now.period }
    ensures some { 1 ≤ result.1 }
{
    let left = tables.config.lifetime(message.period);
    let fact = PathFact {
        session: message.session,
        sender,
        iface,
        hop: message.hop,
        tspec,
        police: message.police,
        adspec: copy_of(&message.adspec),
    };
    (fact, left)
}

/// Keeps a path with this much left, in milliseconds, if there is room for it; its session has a countdown then. Whether there
/// was room.
pub fn keep_path(tables: &mut Tables, fact: PathFact, left: u32) -> bool
    requires some { 1 ≤ left }
    requires pulled { tables.old.paths.dead.rows ≡ [] }
    requires settled { IsSettled (state_of tables.old empty) }
    ensures room { result ≡ has_room_at senders (put_in tables.old.paths.facts (path_key fact) (fact, left)) fact.session }
    ensures state { state_of tables.new empty ≡ cond result (with_path (state_of tables.old empty) (path_key fact) fact left) (state_of tables.old empty) }
    ensures rest { tables.new ≡ record tables.old { senders = tables.new.senders; paths = tables.new.paths; due = tables.new.due } }
    ensures pulled { tables.new.paths.dead.rows ≡ [] }
{
    let period = tables.config.period();
    let session = fact.session;
    tables.senders.limits();
    tables.paths.limits();
    let Ok(()) = tables.paths.learn(fact, left) else {
        return false;
    };
    tables.due.begin(session, period);
    true
}

/// Keeps a local sender, if there is room for it; its session has a countdown then. Whether there was room.
pub fn keep_sender(tables: &mut Tables, session: Session, sender: Sender, tspec: Flow) -> bool
    requires settled { IsSettled (state_of tables.old empty) }
    ensures room { result ≡ has_room_at senders (put_in tables.old.senders.tspecs (session, sender) tspec) session }
    ensures state { state_of tables.new empty ≡ cond result (with_sender (state_of tables.old empty) (session, sender) tspec) (state_of tables.old empty) }
    ensures rest { tables.new ≡ record tables.old { senders = tables.new.senders; paths = tables.new.paths; due = tables.new.due } }
    ensures paths { tables.new.paths ≡ tables.old.paths }
{
    let period = tables.config.period();
    tables.senders.limits();
    tables.paths.limits();
    let Ok(()) = tables.senders.put(session, sender, tspec) else {
        return false;
    };
    tables.due.begin(session, period);
    true
}

/// A local sender is advertised from now on. Whether there is such a sender; where there is none nothing changes.
pub fn advertise_sender(tables: &mut Tables, session: Session, sender: Sender) -> bool
    ensures there { result ≡ has tables.old.senders.tspecs (session, sender) }
    ensures state { state_of tables.new empty ≡ cond result (advertised_put (state_of tables.old empty) (session, sender)) (state_of tables.old empty) }
    ensures rest { tables.new ≡ record tables.old { senders = tables.new.senders; paths = tables.new.paths; due = tables.new.due } }
    ensures paths { tables.new.paths ≡ tables.old.paths }
{
    tables.senders.advertise(session, sender)
}
