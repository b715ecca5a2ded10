//! Names that go when paths die.
ghost use Rattle.std.specs.Prelude.{◌≡◌, ◌||◌, ℕ};
ghost use Rattle.std.specs.List.{list_any};
ghost use Rattle.std.specs.Option.{option_map};
ghost use Rattle.rsvp_base.specs.Orders.{sessions, senders as orders_senders};
ghost use Rattle.rsvp_base.specs.Styles.{name_of};
ghost use Rattle.rsvp_base.specs.Table.{has, keys};
ghost use Rattle.rsvp_base.specs.Under.{under};
ghost use Rattle.path_state.specs.Paths.{is_from};
ghost use Rattle.router_rules.specs.NodeConfig.{is_addr};
ghost use Rattle.router_rules.specs.Known.{known, named_as};
ghost use Rattle.path_sends.specs.RouterState.State.{State, facts_of};
ghost use Rattle.router_aging.specs.Losing.{lost_at};
ghost use Rattle.router_aging.specs.Passing.{dead_key};

use crate::dead::DeadPath;
use local_state::LocalSenders;
use path_sends::name_of;
use path_state::PathTable;
use rsvp_base::{Addr, Sender, Session, StyleKind};

// Whether a known sender of a session has this address.
fn has_address(senders: &LocalSenders, paths: &PathTable, session: Session, addr: Addr) -> bool
    ensures { result ≡ (list_any (λ x. is_addr x.addr addr) (keys (under sessions orders_senders senders.now.tspecs session))
        || list_any (is_from addr) (keys (under sessions orders_senders paths.now.facts session))) }
{
    if senders.has_address(session, addr) {
        return true;
    }
    paths.has_address(session, addr)
}

// Whether a sender of a session is known.
fn is_known(senders: &LocalSenders, paths: &PathTable, session: Session, sender: Sender) -> bool
    ensures { result ≡ (has senders.now.tspecs (session, sender) || has paths.now.facts (session, sender)) }
{
    if senders.find(session, sender).is_some() {
        return true;
    }
    paths.find(session, sender).is_some()
}

// Whether a known sender of a session has the name under which the style lists this one.
fn has_name(
    senders: &LocalSenders,
    paths: &PathTable,
    style: StyleKind,
    session: Session,
    sender: Sender,
) -> bool
    ensures { (c : ℕ) (n : State) → n.senders ≡ senders.now.tspecs → n.paths ≡ paths.now.facts → result ≡ has (named_as style (known (facts_of c n) session)) (name_of style sender) }
{
    match style {
        StyleKind::Wild => has_address(senders, paths, session, sender.addr),
        StyleKind::Fixed => is_known(senders, paths, session, sender),
        StyleKind::Shared => is_known(senders, paths, session, sender),
    }
}

/// The name that reservations of a style lose with a sender whose path died. `None` exactly where a known sender has that
/// name still: a local one, or one with a path; for the wildcard style any of the same address.
pub fn lost_name(
    senders: &LocalSenders,
    paths: &PathTable,
    style: StyleKind,
    dead: &DeadPath,
) -> Option<Sender>
    ensures { (c : ℕ) (n : State) → n.senders ≡ senders.now.tspecs → n.paths ≡ paths.now.facts → option_map (λ x. (dead.now.session, x)) result ≡ lost_at style (facts_of c n) (dead_key dead.now) }
{
    if has_name(senders, paths, style, dead.session, dead.sender) {
        return None;
    }
    Some(name_of(style, dead.sender))
}
