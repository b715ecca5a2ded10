//! What is told where one sender changed.
ghost use Rattle.std.specs.Prelude.{◌≡◌, ℕ, Option, None, fold};
ghost use Rattle.std.specs.Option.{option_map};
ghost use Rattle.rsvp_base.specs.Table.{keys};
ghost use Rattle.router_rules.specs.Inputs.{Asked, only_heard};
ghost use Rattle.router_rules.specs.Offers.{Offer};
ghost use Rattle.router_rules.specs.Sends.{sends};
ghost use Rattle.router_rules.specs.declared.answers.Heard.{Heard};
ghost use Rattle.laws_sends.specs.State.{IsSaid, Said, State, facts_of};
ghost use Rattle.laws_sends.specs.Before.{IsBefore, lanes_by};
ghost use Rattle.laws_sends.specs.Marks.{used_in};
ghost use Rattle.laws_sends.specs.Told.{offered};
ghost use Rattle.path_sends.specs.Offering.{as_offer};
ghost use Rattle.router_state.specs.Whole.{state_of};
ghost use Rattle.resv_sends.specs.Halves.{address_of, facts_told, told_before, told_behind, used_where};

use crate::clearing::clear_lanes;
use crate::lane_marks::used_marks;
use crate::marks::unmark;
use crate::rounds::{tear_lanes, tell_lanes};
use crate::units::Units;
use path_sends::{Offered, tell_gone, tell_new};
use path_state::Hops;
use router_rules::Outbox;
use router_state::Tables;
use rsvp_base::{Addr, Sender, Session};
use rsvp_messages::Message;
use sent_state::LaneTable;

/// What is offered of a sender. `None` exactly where it is not known.
pub fn offered(tables: &Tables, session: Session, sender: Sender) -> Option<Offered>
    ensures { (c : ℕ) (said : Said) → option_map as_offer result ≡ offered (facts_of c (state_of tables.now said)) (session, sender) }
{
    if let Some(own) = tables.senders.find(session, sender) {
        return Some(Offered::own(own.tspec, own.advertised));
    }
    match tables.paths.find(session, sender) {
        Some(fact) => Some(Offered::passed(fact.tspec, &fact.adspec)),
        None => None,
    }
}

/// What was offered of a sender before an input, and the previous hops that its session had then.
#[derive(Drop)]
pub struct PriorOffer {
    pub sender: Sender,
    pub offer: Option<Offered>,
    pub near: Hops,
}

/// The first half of what a node sends where one sender changed, and with it its session alone: the sender's PathTears, and the
/// ResvTears of its session's lanes. What was offered of it, and the session's previous hops, are those from before. What
/// a lane kept as sent last was then what went toward its hop.
pub fn tell_tears<O: Outbox>(
    tables: &Tables,
    said: &LaneTable,
    session: Session,
    prior: &PriorOffer,
    out: &mut O,
)
    ensures { (n : State) (c : ℕ) → IsBefore (session, prior.now.sender) n (state_of tables.now said.now) (option_map as_offer prior.now.offer) prior.now.near
        → out.new ≡ fold O.posted out.old (told_before n.place (session, prior.now.sender) (facts_of c n) (facts_of c (state_of tables.now said.now))) }
{
    let after = offered(tables, session, prior.sender);
    tell_gone(
        &tables.config,
        session,
        prior.sender,
        &prior.offer,
        &after,
        out,
    );
    tear_lanes(tables, said, session, &prior.near, out);
}

// The units of a session's wants whose marks are used, where the message that made the change says nobody to be confirmed.
fn used_for(
    tables: &Tables,
    said: &LaneTable,
    session: Session,
    hops: &Hops,
    asked: Option<Addr>,
) -> Units
    ensures { (c : ℕ) (any : Said) → result ≡ used_where asked (used_in tables.now.config (facts_of c (state_of tables.now any)) session said.now (lanes_by (keys hops.now))) }
{
    match asked {
        Some(_) => Units::new(),
        None => used_marks(tables, said, session, hops),
    }
}

/// The other half: the sender's Paths, and the Resvs of its session's lanes. Those ask to confirm whom the message that made
/// the change names, if it names someone, else the node for its marked wants, whose marks are used then. What a lane keeps as
/// sent last is what goes toward its hop afterwards.
pub fn tell_news<O: Outbox>(
    tables: &mut Tables,
    said: &mut LaneTable,
    session: Session,
    prior: &PriorOffer,
    asked: Option<Addr>,
    out: &mut O,
)
    requires { (n : State) × IsBefore (session, prior.now.sender) n (state_of tables.old said.old) (option_map as_offer prior.now.offer) prior.now.near }
    ensures sent { (n : State) (c : ℕ) (a : Option Asked) → address_of a ≡ asked
        → IsBefore (session, prior.now.sender) n (state_of tables.old said.old) (option_map as_offer prior.now.offer) prior.now.near
        → out.new ≡ fold O.posted out.old (told_behind n.place (session, prior.now.sender) (facts_of c n) (facts_of c (state_of tables.old said.old)) a) }
    ensures facts { (n : State) (c : ℕ) (a : Option Asked) → address_of a ≡ asked
        → IsBefore (session, prior.now.sender) n (state_of tables.old said.old) (option_map as_offer prior.now.offer) prior.now.near
        → facts_of c (state_of tables.new said.new) ≡ facts_told n.place (facts_of c n) (facts_of c (state_of tables.old said.old)) a }
    ensures said { IsSaid said.new (state_of tables.new said.new) }
    ensures rest { tables.new ≡ record tables.old { wants = tables.new.wants } }
{
    let after = offered(tables, session, prior.sender);
    tell_new(
        &tables.config,
        session,
        prior.sender,
        &prior.offer,
        &after,
        out,
    );
    let hops = tables.paths.hops(session);
    let used = used_for(tables, said, session, &hops, asked);
    clear_lanes(tables, said, session, &prior.near);
    tell_lanes(tables, said, session, &hops, asked, false, out);
    unmark(tables, session, &used);
}

/// All that a node sends where one sender changed, and with it its session alone, and nothing else is to be sent: the sender's
/// PathTears, the ResvTears of its session's lanes, the sender's Paths, and the Resvs of its session's lanes. The marks that
/// these use are taken away. What was offered of the sender, and the session's previous hops, are those from before. What
/// a lane kept as sent last was then what went toward its hop, and is so afterwards.
pub fn tell_sender<O: Outbox>(
    tables: &mut Tables,
    said: &mut LaneTable,
    session: Session,
    prior: &PriorOffer,
    out: &mut O,
)
    requires { (n : State) × IsBefore (session, prior.now.sender) n (state_of tables.old said.old) (option_map as_offer prior.now.offer) prior.now.near }
    ensures sent { (n : State) (c : ℕ) (h : Heard)
        → IsBefore (session, prior.now.sender) n (state_of tables.old said.old) (option_map as_offer prior.now.offer) prior.now.near
        → out.new ≡ fold O.posted out.old (sends n.place n.place (facts_of c n) (facts_of c (state_of tables.old said.old)) (only_heard h (facts_of c (state_of tables.old said.old)))) }
    ensures facts { (n : State) (c : ℕ) → IsBefore (session, prior.now.sender) n (state_of tables.old said.old) (option_map as_offer prior.now.offer) prior.now.near
        → facts_of c (state_of tables.new said.new) ≡ facts_told n.place (facts_of c n) (facts_of c (state_of tables.old said.old)) None }
    ensures said { IsSaid said.new (state_of tables.new said.new) }
    ensures rest { tables.new ≡ record tables.old { wants = tables.new.wants } }
{
    tell_tears(tables, said, session, prior, out);
    tell_news(tables, said, session, prior, None, out);
}

// Keeps nothing of what it takes.
#[derive(Drop)]
struct Nowhere;

impl Outbox for Nowhere {
    ghost posted = { λ out send. out };

    fn post(&mut self, _iface: u8, _dst: Addr, _message: &Message, _refresh: bool) {}
}

/// Keeps what goes toward each previous hop of a session as what was last sent there, and sends nothing: so it is where a
/// fact is left over. The session's previous hops are those from before, and what was kept then is what went toward each.
pub fn keep_said(
    tables: &Tables,
    said: &mut LaneTable,
    session: Session,
    sender: Sender,
    near: &Hops,
)
    requires { (n : State) × (o : Option Offer) × IsBefore (session, sender) n (state_of tables.now said.old) o near.now }
    ensures { IsSaid said.new (state_of tables.now said.new) }
{
    let _sender = sender;
    let hops = tables.paths.hops(session);
    clear_lanes(tables, said, session, near);
    tell_lanes(tables, said, session, &hops, None, false, &mut Nowhere);
}
