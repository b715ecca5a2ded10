//! What the types of fields know of their numbers, made known to proofs.
ghost use Rattle.std.specs.Prelude.{◌<◌, ◌^◌};
ghost use Rattle.std.specs.List.{AllByRecursion};
ghost use Rattle.rsvp_objects.specs.AdspecLaws.{IsAdspec};
ghost use Rattle.rsvp_objects.specs.declared.object.Object.TheVariants as AnObject;
ghost use Rattle.rsvp_objects.specs.Proper.{IsSession, IsSender, IsFlow, IsHop, IsError, IsAddr};
ghost use Rattle.rsvp_objects.specs.RateLaws.{IsPeak};
ghost use Rattle.message_codec.specs.Objects.{where_there, sender_objects, pair_objects, filter_objects, ask_objects, tear_objects, named_objects, blame_objects, path_objects};
ghost use Rattle.message_codec.specs.Objects.{resv_objects, path_err_objects, resv_err_objects, path_tear_objects, resv_tear_objects, resv_conf_objects};
ghost use Rattle.message_codec.specs.Ranges.{IsInRange, AreInRange};

use rsvp_base::{Addr, ErrSpec, Flow, Hop, Peak, Sender, Senders, Session, StyleKind};
use rsvp_messages::{
    Ask, Blame, Message, PathErrMsg, PathMsg, PathTearMsg, ResvConfMsg, ResvErrMsg, ResvMsg,
    ResvTearMsg, Tear,
};
use rsvp_objects::Adspec;

/// Each number of a message has room in its field, and its flows are sound, with rates that have words.
pub fn know_fields(message: &Message)
    ensures { AreInRange message.now }
{
    match message {
        Message::Path(m) => know_path(m),
        Message::Resv(m) => know_resv(m),
        Message::PathErr(m) => know_path_err(m),
        Message::ResvErr(m) => know_resv_err(m),
        Message::PathTear(m) => know_path_tear(m),
        Message::ResvTear(m) => know_resv_tear(m),
        Message::ResvConf(m) => know_resv_conf(m),
    }
}

// ---- kinds of messages

#[tactic(auto, using(crate::proofs::Ranged::room_join))]
fn know_path(m: &PathMsg)
    ensures { AllByRecursion IsInRange (path_objects m.now) }
{
    know_session(m.session);
    know_hop(m.hop);
    know_u32(m.period);
    know_offer(m.sender);
    know_advert(&m.adspec)
}

#[tactic(auto, using(crate::proofs::Ranged::room_join))]
fn know_resv(m: &ResvMsg)
    ensures { AllByRecursion IsInRange (resv_objects m.now) }
{
    know_session(m.session);
    know_hop(m.hop);
    know_u32(m.period);
    know_confirm(m.confirm);
    know_ask(&m.ask)
}

fn know_path_err(m: &PathErrMsg)
    ensures { AllByRecursion IsInRange (path_err_objects m.now) }
{
    know_session(m.session);
    know_error(m.err);
    know_template(m.sender)
}

fn know_resv_err(m: &ResvErrMsg)
    ensures { AllByRecursion IsInRange (resv_err_objects m.now) }
{
    know_session(m.session);
    know_hop(m.hop);
    know_error(m.err);
    know_blame(&m.blame)
}

fn know_path_tear(m: &PathTearMsg)
    ensures { AllByRecursion IsInRange (path_tear_objects m.now) }
{
    know_session(m.session);
    know_hop(m.hop);
    know_template(m.sender)
}

fn know_resv_tear(m: &ResvTearMsg)
    ensures { AllByRecursion IsInRange (resv_tear_objects m.now) }
{
    know_session(m.session);
    know_hop(m.hop);
    know_tear(&m.tear)
}

fn know_resv_conf(m: &ResvConfMsg)
    ensures { AllByRecursion IsInRange (resv_conf_objects m.now) }
{
    know_session(m.session);
    know_error(m.err);
    know_addr(m.confirm);
    know_ask(&m.ask)
}

// ---- lists of the styles

#[tactic(auto, using(crate::proofs::Ranged::room_join))]
fn know_ask(ask: &Ask)
    ensures { AllByRecursion IsInRange (ask_objects ask.now) }
{
    match ask {
        Ask::Wild { scope, flow } => {
            know_scope(scope);
            know_flow(*flow)
        }
        Ask::Fixed(list) => know_pairs(list.as_slice()),
        Ask::Shared(part) => {
            know_flow(part.flow);
            know_filters(part.senders.as_slice())
        }
    }
}

#[tactic(auto, using(crate::proofs::Ranged::room_join))]
fn know_tear(tear: &Tear)
    ensures { AllByRecursion IsInRange (tear_objects tear.now) }
{
    match tear {
        Tear::Wild { scope } => know_scope(scope),
        Tear::Fixed(senders) => know_filters(senders.as_slice()),
        Tear::Shared(senders) => know_filters(senders.as_slice()),
    }
}

#[tactic(auto, using(crate::proofs::Ranged::room_join))]
fn know_blame(blame: &Blame)
    ensures { AllByRecursion IsInRange (blame_objects blame.now) }
{
    know_blamed(blame.flow);
    match blame.style {
        StyleKind::Wild => know_scope(&blame.senders),
        StyleKind::Fixed => know_named(&blame.senders),
        StyleKind::Shared => know_named(&blame.senders),
    }
}

fn know_scope(scope: &Option<Senders>)
    ensures { AllByRecursion IsInRange (where_there AnObject.Scope scope.now) }
{
    if let Some(senders) = scope {
        let _ = senders.len();
        know_senders(senders.as_slice());
    }
}

fn know_blamed(flow: Option<Flow>)
    ensures { AllByRecursion IsInRange (where_there AnObject.FlowOf flow) }
{
    if let Some(flow) = flow {
        know_flow(flow);
    }
}

fn know_named(senders: &Option<Senders>)
    ensures { AllByRecursion IsInRange (named_objects senders.now) }
{
    if let Some(senders) = senders {
        know_filters(senders.as_slice());
    }
}

#[tactic(auto, using(crate::proofs::Ranged::filters_room))]
fn know_filters(senders: &[Sender])
    ensures { AllByRecursion IsInRange (filter_objects senders.now) }
{
    know_senders(senders);
}

fn know_senders(senders: &[Sender])
    ensures { AllByRecursion IsSender senders.now }
{
    match senders {
        [] => {}
        [sender, rest @ ..] => {
            know_sender(*sender);
            know_senders(rest)
        }
    }
}

fn know_pairs(pairs: &[(Sender, Flow)])
    ensures { AllByRecursion IsInRange (pair_objects pairs.now) }
{
    match pairs {
        [] => {}
        [(sender, flow), rest @ ..] => {
            know_sender(*sender);
            know_flow(*flow);
            know_pairs(rest)
        }
    }
}

// ---- objects

fn know_offer(offer: Option<(Sender, Flow)>)
    ensures { AllByRecursion IsInRange (sender_objects offer) }
{
    if let Some((sender, flow)) = offer {
        know_sender(sender);
        know_flow(flow);
    }
}

fn know_template(sender: Option<Sender>)
    ensures { AllByRecursion IsInRange (where_there AnObject.Template sender) }
{
    if let Some(sender) = sender {
        know_sender(sender);
    }
}

fn know_confirm(receiver: Option<Addr>)
    ensures { AllByRecursion IsInRange (where_there AnObject.Confirm receiver) }
{
    if let Some(receiver) = receiver {
        know_addr(receiver);
    }
}

fn know_advert(adspec: &Option<Adspec>)
    ensures { AllByRecursion IsInRange (where_there AnObject.Advert adspec.now) }
{
    if let Some(adspec) = adspec {
        know_adspec(adspec);
    }
}

fn know_adspec(adspec: &Adspec)
    ensures { IsAdspec adspec.now }
{
    know_u32(adspec.hops);
    know_peak(adspec.rate);
    know_u32(adspec.latency);
    know_u32(adspec.mtu);
    know_words(adspec.others.words())
}

fn know_words(words: &[u32])
    ensures { AllByRecursion (λ w. w < 2 ^ 32) words.now }
{
    match words {
        [] => {}
        [word, rest @ ..] => {
            know_u32(*word);
            know_words(rest)
        }
    }
}

fn know_session(session: Session)
    ensures { IsSession session }
{
    know_addr(session.group);
    know_u8(session.proto);
    know_u16(session.port)
}

fn know_hop(hop: Hop)
    ensures { IsHop hop }
{
    know_addr(hop.addr);
    know_u32(hop.handle)
}

fn know_error(err: ErrSpec)
    ensures { IsError err }
{
    know_addr(err.node);
    know_u8(err.code);
    know_u16(err.value)
}

fn know_sender(sender: Sender)
    ensures { IsSender sender }
{
    know_addr(sender.addr);
    know_u16(sender.port)
}

fn know_flow(flow: Flow)
    ensures { IsFlow flow }
{
    let _ = flow.r.value();
    let _ = flow.b.value();
    know_peak(flow.p);
    know_u32(flow.low);
    know_u32(flow.most)
}

fn know_peak(peak: Peak)
    ensures { IsPeak peak }
{
    if let Peak::Finite(rate) = peak {
        let _ = rate.value();
    }
}

fn know_addr(addr: Addr)
    ensures { IsAddr addr }
{
    know_u32(addr.0)
}

// ---- numbers

fn know_u32(n: u32)
    ensures { n < 2 ^ 32 }
{
    let _ = n;
}

fn know_u16(n: u16)
    ensures { n < 2 ^ 16 }
{
    let _ = n;
}

fn know_u8(n: u8)
    ensures { n < 2 ^ 8 }
{
    let _ = n;
}
