//! ResvConfs go on.
ghost use Rattle.std.specs.Prelude.{◌≡◌, ℕ, fold};
ghost use Rattle.std.specs.Option.{option_map};
ghost use Rattle.rsvp_base.specs.Orders.{sessions};
ghost use Rattle.rsvp_base.specs.Under.{under};
ghost use Rattle.resv_state.specs.Walks.{rests};
ghost use Rattle.laws_sends.specs.State.{State, table_in};
ghost use Rattle.rsvp_messages.specs.Units.{ask_style};
ghost use Rattle.error_sends.specs.Going.{are_some, conf_row, confs_told, going_row};
ghost use Rattle.error_sends.specs.ResvConfs.{resv_conf_heard, resv_conf_sent};

use crate::confirm::confirms;
use crate::outgoing::{Outgoing, hold, post_last};
use crate::resv_err::FACTS;
use resv_state::{ResvFact, ResvTable};
use router_rules::{Heard, Outbox, Why};
use router_state::Config;
use rsvp_messages::{Ask, Message, ResvConfMsg};
use soft_table::Finger;
use style_rules::{Fixed, Shared, Style, Wild};

/// A ResvConf arrives (RFC 2205, 2.6 and 3.1.9; RFC 2209, 2: RESV CONFIRM ARRIVES). It has come to its end where its address is
/// one of the node's, and else goes on to each next hop that wished it. Where nobody did it is dropped.
pub fn pass_resv_conf<O: Outbox>(
    config: &Config,
    wild: &ResvTable<Wild>,
    fixed: &ResvTable<Fixed>,
    shared: &ResvTable<Shared>,
    message: &ResvConfMsg,
    out: &mut O,
) -> Heard
    ensures heard { (c : ℕ) (n : State) → n.place ≡ config.now → n.wild ≡ wild.now.facts → n.fixed ≡ fixed.now.facts → n.shared ≡ shared.now.facts → result ≡ resv_conf_heard c n message.now }
    ensures sent { (c : ℕ) (n : State) → n.place ≡ config.now → n.wild ≡ wild.now.facts → n.fixed ≡ fixed.now.facts → n.shared ≡ shared.now.facts
        → out.new ≡ fold O.posted out.old (resv_conf_sent c n message.now) }
{
    if config.is_own(message.confirm) {
        return Heard::Taken;
    }
    if !tell_by_style(wild, fixed, shared, message, out) {
        return Heard::Dropped(Why::NoState);
    }
    Heard::Taken
}

// The ResvConfs that go on to the next hops of the reservations of the style that is confirmed. Whether there are some.
fn tell_by_style<O: Outbox>(
    wild: &ResvTable<Wild>,
    fixed: &ResvTable<Fixed>,
    shared: &ResvTable<Shared>,
    message: &ResvConfMsg,
    out: &mut O,
) -> bool
    ensures sent { (n : State) → n.wild ≡ wild.now.facts → n.fixed ≡ fixed.now.facts → n.shared ≡ shared.now.facts
        → out.new ≡ fold O.posted out.old (confs_told message.now (ask_style message.now.ask) (under sessions rests (table_in (ask_style message.now.ask) n) message.now.session).rows) }
    ensures some { (n : State) → n.wild ≡ wild.now.facts → n.fixed ≡ fixed.now.facts → n.shared ≡ shared.now.facts
        → result ≡ are_some (confs_told message.now (ask_style message.now.ask) (under sessions rests (table_in (ask_style message.now.ask) n) message.now.session).rows) }
{
    match &message.ask {
        Ask::Wild { .. } => tell_confs(wild, message, out),
        Ask::Fixed(_) => tell_confs(fixed, message, out),
        Ask::Shared(_) => tell_confs(shared, message, out),
    }
}

// The ResvConfs that go on to the next hops of a style's reservations. Whether there are some.
fn tell_confs<S: Style, O: Outbox>(table: &ResvTable<S>, message: &ResvConfMsg, out: &mut O) -> bool
    ensures sent { out.new ≡ fold O.posted out.old (confs_told message.now S.kind_is (under sessions rests table.now.facts message.now.session).rows) }
    ensures some { result ≡ are_some (confs_told message.now S.kind_is (under sessions rests table.now.facts message.now.session).rows) }
{
    // The proof sees here what holds of every table.
    table.limits();
    let mut last = None;
    let mut finger = Finger::default();
    let mut next = table.first(message.session);
    for k in 0..FACTS {
        let Some(fact) = next else {
            let told = last.is_some();
            post_last(last, out);
            return told;
        };
        let more = conf_of::<S>(message, fact);
        last = hold(last, more, out);
        next = table.after(fact, &mut finger);
    }
    let told = last.is_some();
    post_last(last, out);
    told
}

// The ResvConf that goes on to the next hop of a reservation, if one does.
fn conf_of<S: Style>(message: &ResvConfMsg, fact: &ResvFact) -> Option<Outgoing>
    ensures { option_map going_row result ≡ conf_row message.now S.kind_is (fact.now.iface, fact.now.next) fact.now.part fact.now.confirm }
{
    if !confirms(
        &fact.part,
        fact.confirm,
        S::kind(),
        message.confirm,
        &message.ask,
    ) {
        return None;
    }
    Some(Outgoing {
        iface: fact.iface,
        dst: fact.next,
        message: Message::ResvConf(message.copy()),
    })
}
