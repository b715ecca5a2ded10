//! Where a node puts what it sends.
ghost use Rattle.std.specs.Prelude.{◌≡◌};
ghost use Rattle.router_rules.specs.Inputs.{Send};

use rsvp_base::Addr;
use rsvp_messages::Message;

/// Takes what a node sends, one message after another. What is posted is put behind what was posted before; an outbox need
/// not keep it.
pub trait Outbox {
    /// What it is with one more.
    ghost posted: { Self → Send → Self };

    /// Takes a message that goes out by an interface, to an address, and whether it is the refresh of a session that came
    /// due.
    fn post(&mut self, iface: u8, dst: Addr, message: &Message, refresh: bool)
        ensures { self.new ≡ posted self.old (record { iface = iface; dst = dst; message = message.now; refresh = refresh }) };
}
