//! What is told after a wait: the tears of the paths that died, and the Paths of the sessions that came due.
ghost use Rattle.std.specs.Prelude.{◌≡◌, ℕ, true, fold, is_some, None};
ghost use Rattle.std.specs.List.{flat_map};
ghost use Rattle.rsvp_base.specs.Table.{get, has, keys};
ghost use Rattle.router_rules.specs.Facts.{Facts, SenderKey};
ghost use Rattle.path_sends.specs.RouterState.State.{State, facts_of};
ghost use Rattle.laws_sends.specs.Told.{offered, paths_told};
ghost use Rattle.path_sends.specs.Offering.{fact_offer};
ghost use Rattle.router_rules.specs.Offers.{own_offer};
ghost use Rattle.laws_sends.specs.Several.{gone_told, refreshed};
ghost use Rattle.router_aging.specs.Passing.{dead_key};
ghost use Rattle.router_aging.specs.Telling.{announced, gone_by, offer_by, refreshed_by, told_again};

use crate::dead::{DeadPath, DeadPaths};
use crate::known::KnownSenders;
use local_state::{Fired, LocalSenders};
use path_sends::{Offered, tell_path_tears, tell_paths};
use path_state::{PathFact, PathTable};
use router_rules::Outbox;
use router_state::Config;
use rsvp_base::{Flow, Sender, Session};

// The Paths of a local sender, as a refresh.
fn tell_own<O: Outbox>(
    config: &Config,
    session: Session,
    sender: Sender,
    tspec: Flow,
    advertised: bool,
    out: &mut O,
)
    ensures { out.new ≡ fold O.posted out.old (paths_told config.now true (session, sender) (own_offer advertised tspec)) }
{
    let offered = Offered::own(tspec, advertised);
    tell_paths(config, session, sender, &offered, true, out);
}

// The Paths of a sender by its path, as a refresh.
fn tell_passed<O: Outbox>(
    config: &Config,
    session: Session,
    sender: Sender,
    fact: &PathFact,
    out: &mut O,
)
    ensures { out.new ≡ fold O.posted out.old (paths_told config.now true (session, sender) (fact_offer fact.now)) }
{
    let offered = Offered::passed(fact.tspec, &fact.adspec);
    tell_paths(config, session, sender, &offered, true, out);
}

// The Paths of a sender, if it is known, as a refresh.
fn tell_again<O: Outbox>(
    config: &Config,
    senders: &LocalSenders,
    paths: &PathTable,
    session: Session,
    sender: Sender,
    out: &mut O,
)
    ensures { out.new ≡ fold O.posted out.old (told_again config.now (session, sender) (offer_by senders.now paths.now.facts (session, sender))) }
{
    if let Some(own) = senders.find(session, sender) {
        return tell_own(config, session, sender, own.tspec, own.advertised, out);
    }
    if let Some(fact) = paths.find(session, sender) {
        tell_passed(config, session, sender, fact, out);
    }
}

// All Paths of a session, by the tables.
fn tell_session<O: Outbox>(
    config: &Config,
    senders: &LocalSenders,
    paths: &PathTable,
    session: Session,
    out: &mut O,
)
    ensures { out.new ≡ fold O.posted out.old (refreshed_by config.now senders.now paths.now.facts session) }
{
    let known = KnownSenders::of(senders, paths, session);
    let list = known.as_slice();
    for i in 0..list.len() {
        tell_again(config, senders, paths, session, list[i], out);
    }
}

/// All Paths of a session, as the refresh of one that came due: of each known sender, by each interface by which its tree
/// goes on, in order.
pub fn tell_refresh<O: Outbox>(
    config: &Config,
    senders: &LocalSenders,
    paths: &PathTable,
    session: Session,
    out: &mut O,
)
    ensures { (c : ℕ) (n : State) → n.place ≡ config.now → announced n ≡ senders.now → n.paths ≡ paths.now.facts → out.new ≡ fold O.posted out.old (refreshed n.place (facts_of c n) session) }
{
    tell_session(config, senders, paths, session, out);
}

/// All Paths of the sessions that came due, in order.
pub fn tell_fired<O: Outbox>(
    config: &Config,
    senders: &LocalSenders,
    paths: &PathTable,
    fired: &Fired,
    out: &mut O,
)
    ensures { (c : ℕ) (n : State) → n.place ≡ config.now → announced n ≡ senders.now → n.paths ≡ paths.now.facts
        → out.new ≡ fold O.posted out.old (flat_map (refreshed n.place (facts_of c n)) (keys fired.now)) }
{
    let list = fired.as_slice();
    for i in 0..list.len() {
        tell_session(config, senders, paths, list[i], out);
    }
}

// The tears of a sender whose path died, if it is no local one.
fn tell_one<O: Outbox>(config: &Config, senders: &LocalSenders, dead: &DeadPath, out: &mut O)
    ensures { out.new ≡ fold O.posted out.old (gone_by config.now senders.now.tspecs (dead_key dead.now)) }
{
    if senders.find(dead.session, dead.sender).is_none() {
        tell_path_tears(config, dead.session, dead.sender, out);
    }
}

/// The PathTears of the senders whose paths died and that are no local ones, in order of session and sender: those that
/// are offered no more. Before the wait each of these paths was there, and after it none is.
pub fn tell_dead<O: Outbox>(config: &Config, senders: &LocalSenders, dead: &DeadPaths, out: &mut O)
    ensures { (f g : Facts) → g.senders ≡ senders.now.tspecs → ((k : SenderKey) → has dead.now k ≡ true → is_some (offered f k) ≡ true)
        → ((k : SenderKey) → has dead.now k ≡ true → get g.paths k ≡ None)
        → out.new ≡ fold O.posted out.old (gone_told config.now f g (keys dead.now)) }
{
    let list = dead.as_slice();
    for i in 0..list.len() {
        tell_one(config, senders, &list[i], out);
    }
}
