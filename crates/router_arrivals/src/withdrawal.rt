//! Paths and local senders leave the tables, and their names with them.
ghost use Rattle.std.specs.Prelude.{◌≡◌, ◌==◌, ◌&&◌, ℕ, cond, is_some, IfSome, Some};
ghost use Rattle.std.specs.Option.{option_copied, option_map};
ghost use Rattle.rsvp_base.specs.Table.{empty, get, has};
ghost use Rattle.router_rules.specs.NodeConfig.{is_addr};
ghost use Rattle.router_rules.specs.Paths.{is_path_by};
ghost use Rattle.router_state.specs.State.{IsSettled, State, facts_of};
ghost use Rattle.router_state.specs.Whole.{state_of};
ghost use Rattle.router_aging.specs.Steps.{AreSound, names_gone};
ghost use Rattle.router_arrivals.specs.Coming.{stopped, without_path, without_sender};

use path_state::{PathFact, PathTable};
use router_aging::{forget_lost, is_counted, stop_unless};
use router_state::Tables;
use rsvp_base::{Addr, Sender, Session};

/// The path of a sender, where it came by an interface and hop. `None` exactly where it did not, or there is none.
pub fn path_by(
    paths: &PathTable,
    session: Session,
    sender: Sender,
    iface: u8,
    hop: Addr,
) -> Option<&PathFact>
    ensures by { (c : ℕ) (n : State) → n.paths ≡ paths.now.facts → is_some result ≡ is_path_by (iface, hop) (get (facts_of c n).paths (session, sender)) }
    ensures fact { IfSome (option_copied result) (λ f. option_map (λ e. e.0) (get paths.now.facts (session, sender)) ≡ Some f) }
{
    let Some(fact) = paths.find(session, sender) else {
        return None;
    };
    if !came_by(fact, iface, hop) {
        return None;
    }
    Some(fact)
}

/// Whether a sender's path came by an interface and hop.
pub fn has_path_by(
    paths: &PathTable,
    session: Session,
    sender: Sender,
    iface: u8,
    hop: Addr,
) -> bool
    ensures { (c : ℕ) (n : State) → n.paths ≡ paths.now.facts → result ≡ is_path_by (iface, hop) (get (facts_of c n).paths (session, sender)) }
{
    path_by(paths, session, sender, iface, hop).is_some()
}

// Whether a path came by an interface and hop.
fn came_by(fact: &PathFact, iface: u8, hop: Addr) -> bool
    ensures { result ≡ ((fact.now.iface == iface) && is_addr fact.now.hop.addr hop) }
{
    fact.iface == iface && fact.hop.addr == hop
}

/// Takes a path out. Its sender's names leave where no known sender has them; its session's countdown stops where it was the
/// last.
pub fn drop_path(tables: &mut Tables, session: Session, sender: Sender)
    requires sound { AreSound tables.old }
    requires settled { IsSettled (state_of tables.old empty) }
    ensures state { state_of tables.new empty ≡ without_path (state_of tables.old empty) (session, sender) }
    ensures sound { AreSound tables.new }
    ensures ifaces { tables.new.book.ifaces ≡ tables.old.book.ifaces }
{
    let _was = tables.paths.tear(session, sender);
    let_go(tables, session, sender);
}

/// Takes a local sender out. Its names leave where no known sender has them; its session's countdown stops where it was the
/// last. Whether there was such a sender.
pub fn drop_sender(tables: &mut Tables, session: Session, sender: Sender) -> bool
    requires sound { AreSound tables.old }
    requires settled { IsSettled (state_of tables.old empty) }
    ensures there { result ≡ has tables.old.senders.tspecs (session, sender) }
    ensures state { state_of tables.new empty ≡ cond result (without_sender (state_of tables.old empty) (session, sender)) (state_of tables.old empty) }
    ensures sound { AreSound tables.new }
    ensures ifaces { tables.new.book.ifaces ≡ tables.old.book.ifaces }
{
    if !tables.senders.remove(session, sender) {
        return false;
    }
    let_go(tables, session, sender);
    true
}

// The names of a sender that is gone leave, and its session's countdown stops where it was the last.
fn let_go(tables: &mut Tables, session: Session, sender: Sender)
    requires { AreSound tables.old }
    ensures state { state_of tables.new empty ≡ stopped (names_gone (session, sender) (state_of tables.old empty)) session }
    ensures sound { AreSound tables.new }
    ensures ifaces { tables.new.book.ifaces ≡ tables.old.book.ifaces }
{
    forget_lost(tables, session, sender);
    let stays = is_counted(&tables.senders, &tables.paths, session);
    stop_unless(&mut tables.due, stays, session);
}
