//! Paths and PathTears of a sender.
ghost use Rattle.std.specs.Prelude.{◌≡◌, ◌==◌, ◌&&◌, ℕ, Bool, Some, not, false, fold, map, slice_get};
ghost use Rattle.std.specs.Int.{bit_at};
ghost use Rattle.std.specs.List.{filter};
ghost use Rattle.std.specs.Option.{option_map};
ghost use Rattle.router_rules.specs.NodeConfig.{NodeConfig, period as period_of, tree};
ghost use Rattle.router_rules.specs.Sends.{is_new_offer, path_send, path_tear};
ghost use Rattle.laws_sends.specs.Told.{offer_key, paths_told, tears_told, told_gone, told_new};
ghost use Rattle.laws_sends.specs.Routes.{ways_out};
ghost use Rattle.path_sends.specs.Offering.{as_offer};
ghost use Rattle.path_sends.specs.Ways.{ways_but, ways_in};

use crate::offered::{Offered, advert_by};
use router_rules::Outbox;
use router_state::{Config, is_out};
use rsvp_base::{Hop, Iface, Sender, Session};
use rsvp_messages::{Message, PathMsg, PathTearMsg};

// The Path of a sender that leaves by an interface.
fn path_by(on: Iface, period: u32, session: Session, sender: Sender, offered: &Offered) -> Message
    ensures { (p : NodeConfig) (i : ℕ) (refresh : Bool) → slice_get p.ifaces i ≡ Some on → period_of p ≡ period
        → result ≡ (path_send p refresh (offer_key (session, sender) i, as_offer offered.now)).message }
{
    Message::Path(PathMsg {
        session,
        police: offered.local,
        hop: Hop {
            addr: on.addr,
            handle: 0,
        },
        period,
        sender: Some((sender, offered.tspec)),
        adspec: advert_by(&offered.advert, on),
    })
}

// The Paths of a sender, by each of these interfaces, in their order: bit i of `ways` stands for interface i.
fn tell_paths_by<O: Outbox>(
    config: &Config,
    session: Session,
    sender: Sender,
    offered: &Offered,
    ways: u16,
    refresh: bool,
    out: &mut O,
)
    ensures { out.new ≡ fold O.posted out.old (map
        (λ i. path_send config.now refresh (offer_key (session, sender) i, as_offer offered.now)) (ways_in config.now ways)) }
{
    let ifaces = config.ifaces();
    let period = config.period();
    for i in 0..ifaces.len() {
        let iface = i as u8;
        if is_out(ways, iface) {
            let message = path_by(ifaces[i], period, session, sender, offered);
            out.post(iface, session.group, &message, refresh);
        }
    }
}

// Whether an interface is one of these, and what is offered is new at it: bit i of `ways` stands for interface i.
fn is_told(ways: u16, iface: u8, on: Iface, offered: &Offered, before: &Option<Offered>) -> bool
    ensures { (p : NodeConfig) → slice_get p.ifaces iface ≡ Some on
        → result ≡ ((bit_at ways iface == 1) && is_new_offer p iface (as_offer offered.now) (option_map as_offer before.now)) }
{
    if !is_out(ways, iface) {
        return false;
    }
    offered.is_new(before, on)
}

// The Paths of a sender, by those of these interfaces at which what is offered of it is new, in their order: bit i of `ways`
// stands for interface i.
fn tell_new_by<O: Outbox>(
    config: &Config,
    session: Session,
    sender: Sender,
    before: &Option<Offered>,
    offered: &Offered,
    ways: u16,
    out: &mut O,
)
    ensures { out.new ≡ fold O.posted out.old (map
        (λ i. path_send config.now false (offer_key (session, sender) i, as_offer offered.now))
        (filter (λ i. is_new_offer config.now i (as_offer offered.now) (option_map as_offer before.now)) (ways_in config.now ways))) }
{
    let ifaces = config.ifaces();
    let period = config.period();
    for i in 0..ifaces.len() {
        let iface = i as u8;
        if is_told(ways, iface, ifaces[i], offered, before) {
            let message = path_by(ifaces[i], period, session, sender, offered);
            out.post(iface, session.group, &message, false);
        }
    }
}

// The PathTears of a sender, by each of these interfaces, in their order: bit i of `ways` stands for interface i.
fn tell_tears_by<O: Outbox>(
    config: &Config,
    session: Session,
    sender: Sender,
    ways: u16,
    out: &mut O,
)
    ensures { out.new ≡ fold O.posted out.old (map (λ i. path_tear config.now (offer_key (session, sender) i)) (ways_in config.now ways)) }
{
    let ifaces = config.ifaces();
    for i in 0..ifaces.len() {
        let iface = i as u8;
        if is_out(ways, iface) {
            let message = PathTearMsg {
                session,
                hop: Hop {
                    addr: ifaces[i].addr,
                    handle: 0,
                },
                sender: Some(sender),
            };
            out.post(iface, session.group, &Message::PathTear(message), false);
        }
    }
}

/// The Paths of a sender, by each interface by which its tree goes on, in their order.
pub fn tell_paths<O: Outbox>(
    config: &Config,
    session: Session,
    sender: Sender,
    offered: &Offered,
    refresh: bool,
    out: &mut O,
)
    ensures { out.new ≡ fold O.posted out.old (paths_told config.now refresh (session, sender) (as_offer offered.now)) }
{
    let ways = config.ways_of(session, sender);
    tell_paths_by(config, session, sender, offered, ways, refresh, out);
}

/// The PathTears of a sender, by each interface by which its tree goes on, in their order.
pub fn tell_path_tears<O: Outbox>(config: &Config, session: Session, sender: Sender, out: &mut O)
    ensures { out.new ≡ fold O.posted out.old (tears_told config.now (session, sender)) }
{
    let ways = config.ways_of(session, sender);
    tell_tears_by(config, session, sender, ways, out);
}

/// The Paths of a sender, by the interfaces at which what is offered of it is new.
pub fn tell_new<O: Outbox>(
    config: &Config,
    session: Session,
    sender: Sender,
    before: &Option<Offered>,
    after: &Option<Offered>,
    out: &mut O,
)
    ensures { out.new ≡ fold O.posted out.old (told_new config.now (session, sender) (option_map as_offer before.now) (option_map as_offer after.now)) }
{
    let Some(offered) = after else {
        return;
    };
    // Most often a Path says what the one before it said.
    if offered.is_again(before) {
        return;
    }
    let ways = config.ways_of(session, sender);
    tell_new_by(config, session, sender, before, offered, ways, out);
}

/// The PathTears of a sender, where it was offered and is no more.
pub fn tell_gone<O: Outbox>(
    config: &Config,
    session: Session,
    sender: Sender,
    before: &Option<Offered>,
    after: &Option<Offered>,
    out: &mut O,
)
    ensures { out.new ≡ fold O.posted out.old (told_gone config.now (session, sender) (option_map as_offer before.now) (option_map as_offer after.now)) }
{
    if before.is_some() && after.is_none() {
        tell_path_tears(config, session, sender, out);
    }
}

// The interfaces of the one set that are not in the other: bit i of a set stands for interface i.
fn only_in(these: u16, those: u16) -> u16
    ensures { (i : ℕ) → (bit_at result i == 1) ≡ ((bit_at these i == 1) && not (bit_at those i == 1)) }
{
    these & !those
}

/// The PathTears of a sender, by those interfaces of `old` by which its tree does not go on now, in their order: bit i of
/// `old` stands for interface i.
pub fn tell_gone_ways<O: Outbox>(
    config: &Config,
    session: Session,
    sender: Sender,
    old: u16,
    out: &mut O,
)
    ensures { out.new ≡ fold O.posted out.old (map (λ i. path_tear config.now (offer_key (session, sender) i)) (ways_but config.now old (ways_out (tree config.now session sender)))) }
{
    let ways = config.ways_of(session, sender);
    tell_tears_by(config, session, sender, only_in(old, ways), out);
}

/// The Paths of a sender, by those interfaces by which its tree goes on now and that are not in `old`, in their order: bit i of
/// `old` stands for interface i.
pub fn tell_new_ways<O: Outbox>(
    config: &Config,
    session: Session,
    sender: Sender,
    offered: &Offered,
    old: u16,
    out: &mut O,
)
    ensures { out.new ≡ fold O.posted out.old (map
        (λ i. path_send config.now false (offer_key (session, sender) i, as_offer offered.now)) (ways_but config.now (ways_out (tree config.now session sender)) old)) }
{
    let ways = config.ways_of(session, sender);
    tell_paths_by(
        config,
        session,
        sender,
        offered,
        only_in(ways, old),
        false,
        out,
    );
}
