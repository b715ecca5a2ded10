//! PathErrs go on.
ghost use Rattle.std.specs.Prelude.{◌≡◌, ℕ, fold};
ghost use Rattle.laws_sends.specs.State.{State};
ghost use Rattle.error_sends.specs.PathErrs.{path_err_heard, path_err_sent};

use local_state::LocalSenders;
use path_state::PathTable;
use router_rules::{Heard, Outbox, Why};
use router_state::Config;
use rsvp_messages::{Message, PathErrMsg};

/// A PathErr arrives by an interface (RFC 2205, 3.1.7; RFC 2209, 2: PATH ERROR MESSAGE ARRIVES). It goes on to the hop that
/// its sender's path came from, until it comes to a local sender. It is dropped where it names no sender, where it did not
/// come by an interface to which the sender's Paths go, and where the sender has no path.
pub fn pass_path_err<O: Outbox>(
    config: &Config,
    senders: &LocalSenders,
    paths: &PathTable,
    iface: u8,
    message: &PathErrMsg,
    out: &mut O,
) -> Heard
    ensures heard { (c : ℕ) (n : State) → n.place ≡ config.now → n.senders ≡ senders.now.tspecs → n.paths ≡ paths.now.facts → result ≡ path_err_heard c n iface message.now }
    ensures sent { (c : ℕ) (n : State) → n.place ≡ config.now → n.senders ≡ senders.now.tspecs → n.paths ≡ paths.now.facts → out.new ≡ fold O.posted out.old (path_err_sent c n iface message.now) }
{
    let Some(sender) = message.sender else {
        return Heard::Dropped(Why::NoSender);
    };
    let session = message.session;
    if !config.goes_out(session, iface, sender) {
        return Heard::Dropped(Why::NotOutward);
    }
    if senders.find(session, sender).is_some() {
        return Heard::Taken;
    }
    let Some(path) = paths.find(session, sender) else {
        return Heard::Dropped(Why::NoState);
    };
    out.post(
        path.iface,
        path.hop.addr,
        &Message::PathErr(*message),
        false,
    );
    Heard::Taken
}
