//! What goes back for a Resv.
ghost use Rattle.std.specs.Prelude.{◌≡◌, ℕ, fold, map};
ghost use Rattle.router_rules.specs.Asking.{asker_of};
ghost use Rattle.router_rules.specs.Sends.{error_message, error_send};
ghost use Rattle.resv_admission.specs.Units.{refusal_of};

use crate::taking::style_of;
use resv_admission::{Refusal, Refusals};
use router_rules::Outbox;
use router_state::Config;
use rsvp_base::{ErrSpec, Hop, Senders};
use rsvp_messages::{Blame, Message, ResvErrMsg, ResvMsg};

/// The refusals of a Resv that came by an interface go back to its next hop, one after another (RFC 2205, 3.1.8).
pub fn tell_refusals<O: Outbox>(
    config: &Config,
    iface: u8,
    message: &ResvMsg,
    errors: &Refusals,
    out: &mut O,
)
    ensures { (c : ℕ) → out.new ≡ fold O.posted out.old (map error_send (map (refusal_of config.now (asker_of config.now c iface message.now)) errors.now)) }
{
    let list = errors.as_slice();
    for i in 0..list.len() {
        tell_refusal(config, iface, message, &list[i], out);
    }
}

// One refusal goes back. The room of its message is taken here, and not where there is none to tell.
fn tell_refusal<O: Outbox>(
    config: &Config,
    iface: u8,
    message: &ResvMsg,
    refusal: &Refusal,
    out: &mut O,
)
    ensures { (c : ℕ) → out.new ≡ O.posted out.old (error_send (refusal_of config.now (asker_of config.now c iface message.now) refusal.now)) }
{
    let error = error_of(config, iface, message, refusal);
    out.post(iface, message.hop.addr, &error, false);
}

// The ResvErr of a refusal: of this node, with the style and the flow that were asked for.
fn error_of(config: &Config, iface: u8, message: &ResvMsg, refusal: &Refusal) -> Message
    ensures { (c : ℕ) → result ≡ error_message (refusal_of config.now (asker_of config.now c iface message.now) refusal.now).error }
{
    let node = config.own(iface);
    Message::ResvErr(ResvErrMsg {
        session: message.session,
        hop: Hop {
            addr: node,
            handle: 0,
        },
        err: ErrSpec {
            node,
            in_place: refusal.in_place,
            not_guilty: false,
            code: refusal.code,
            value: refusal.value,
        },
        blame: Blame {
            style: style_of(&message.ask),
            senders: copied(&refusal.names),
            flow: Some(refusal.flow),
        },
    })
}

// The same names, if there are some.
fn copied(names: &Option<Senders>) -> Option<Senders>
    ensures { result ≡ names.now }
{
    match names {
        Some(list) => Some(list.copy()),
        None => None,
    }
}
