//! What was taken of a Resv is confirmed.
ghost use Rattle.std.specs.Prelude.{◌≡◌, ℕ, Option, fold};
ghost use Rattle.rsvp_base.specs.Sets.{Set};
ghost use Rattle.rsvp_base.specs.declared.session.Sender.{Sender as Sending};
ghost use Rattle.rsvp_messages.specs.declared.message.Message.TheVariants as message_of;
ghost use Rattle.style_rules.specs.Lines.{next_hops};
ghost use Rattle.router_rules.specs.Asking.{asked_of, asker_of};
ghost use Rattle.router_rules.specs.Offers.{Offer};
ghost use Rattle.router_rules.specs.Sends.{conf_sends, confirmed, without_scope};
ghost use Rattle.router_state.specs.State.{State, facts_of};
ghost use Rattle.laws_sends.specs.Before.{IsBefore};
ghost use Rattle.router_state.specs.Whole.{state_of};
ghost use Rattle.router_core.specs.Confirming.{conf_of, confirmed_here};

use resv_sends::is_any_new;
use router_rules::Outbox;
use router_state::{Config, Tables};
use rsvp_base::{Addr, ErrSpec};
use rsvp_messages::{Ask, Message, ResvConfMsg, ResvMsg};
use sent_state::LaneTable;

/// What was taken of a Resv that came by an interface goes back to its next hop, where the Resv wishes to be confirmed and
/// nothing goes on for it: no Resv is to go to a previous hop of its session for the change (RFC 2205, 2.6). The tables are
/// those with the change, and what was said is that of before.
pub(crate) fn confirm<O: Outbox>(
    tables: &Tables,
    said: &LaneTable,
    iface: u8,
    message: &ResvMsg,
    taken: &Option<Ask>,
    out: &mut O,
)
    ensures { (n : State) (c : ℕ) (x : Sending) (offer : Option Offer) (near : Set next_hops)
        → IsBefore (message.now.session, x) n (state_of tables.now said.now) offer near
        → out.new ≡ fold O.posted out.old
        (conf_sends (confirmed n.place n.place (facts_of c n) (facts_of c (state_of tables.now said.now)) (asked_of (asker_of n.place c iface message.now) taken.now message.now.confirm))) }
{
    let Some(wish) = message.confirm else {
        return;
    };
    let Some(ask) = taken else {
        return;
    };
    let hops = tables.paths.hops(message.session);
    if is_any_new(tables, said, message.session, &hops) {
        return;
    }
    let conf = conf_of(&tables.config, iface, message, wish, ask.copy());
    out.post(iface, message.hop.addr, &conf, false);
}

/// What was taken of a Resv that came by an interface goes back to its next hop, where the Resv wishes to be confirmed. Nothing
/// goes on for it.
pub(crate) fn confirm_here<O: Outbox>(
    config: &Config,
    iface: u8,
    message: &ResvMsg,
    taken: &Option<Ask>,
    out: &mut O,
)
    ensures { (c : ℕ) → out.new ≡ fold O.posted out.old (conf_sends (confirmed_here config.now (asked_of (asker_of config.now c iface message.now) taken.now message.now.confirm))) }
{
    let Some(wish) = message.confirm else {
        return;
    };
    let Some(ask) = taken else {
        return;
    };
    let conf = conf_of(config, iface, message, wish, ask.copy());
    out.post(iface, message.hop.addr, &conf, false);
}

// The ResvConf of what was taken, to whom the Resv names.
fn conf_of(config: &Config, iface: u8, message: &ResvMsg, wish: Addr, ask: Ask) -> Message
    ensures { result ≡ message_of.ResvConf (conf_of config.now iface message.now wish ask) }
{
    Message::ResvConf(ResvConfMsg {
        session: message.session,
        err: ErrSpec {
            node: config.own(iface),
            in_place: false,
            not_guilty: false,
            code: 0,
            value: 0,
        },
        confirm: wish,
        ask: without_scope(ask),
    })
}

// What was asked for, of a wildcard filter without its SCOPE.
fn without_scope(ask: Ask) -> Ask
    ensures { result ≡ without_scope ask }
{
    match ask {
        Ask::Wild { flow, .. } => Ask::Wild { scope: None, flow },
        Ask::Fixed(list) => Ask::Fixed(list),
        Ask::Shared(part) => Ask::Shared(part),
    }
}
