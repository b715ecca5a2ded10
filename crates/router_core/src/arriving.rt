//! A message arrives.
ghost use Rattle.std.specs.Prelude.{◌≡◌, ◌<◌, ℕ, fold, length};
ghost use Rattle.router_rules.specs.Act.{is_mine};
ghost use Rattle.router_rules.specs.Inputs.{Came, Spelt};
ghost use Rattle.router_rules.specs.Rule.{facts_after, heard_after, sent_after};
ghost use Rattle.router_state.specs.State.{facts_at};

use crate::node::Node;
use router_rules::{Heard, Outbox, Why};
use router_state::Config;
use rsvp_base::Addr;
use rsvp_messages::Message;

impl Node {
    /// A message arrives by one of the node's interfaces, to an address (RFC 2209, 2). It is dropped where it is not for the
    /// node: a Path and a PathTear go to the group of their session, the others to the node's own address of the interface.
    pub fn arrive<O: Outbox>(
        &mut self,
        iface: u8,
        dst: Addr,
        message: &Message,
        out: &mut O,
    ) -> Heard
        requires { iface < length self.old.place.ifaces }
        ensures facts { (c : ℕ) → facts_at c self.new ≡ facts_after self.old.place self.old.place c (Came iface dst (Spelt message.now)) (facts_at c self.old) }
        ensures heard { (c : ℕ) → result ≡ heard_after self.old.place c iface dst (Spelt message.now) (facts_at c self.old) }
        ensures sent { (c : ℕ) → out.new ≡ fold O.posted out.old (sent_after self.old.place self.old.place c (Came iface dst (Spelt message.now)) (facts_at c self.old)) }
        ensures place { self.new.place ≡ self.old.place }
    {
        if !is_mine(&self.tables.config, iface, dst, message) {
            return Heard::Dropped(Why::NotMine);
        }
        match message {
            Message::Path(path) => self.path(iface, path, out),
            Message::Resv(resv) => self.resv(iface, resv, out),
            Message::PathErr(error) => self.path_err(iface, error, out),
            Message::ResvErr(error) => self.resv_err(iface, error, out),
            Message::PathTear(tear) => self.path_tear(iface, tear, out),
            Message::ResvTear(tear) => self.resv_tear(iface, tear, out),
            Message::ResvConf(conf) => self.resv_conf(iface, conf, out),
        }
    }
}

// Whether a message that came by an interface, to an address, is for the node.
fn is_mine(config: &Config, iface: u8, dst: Addr, message: &Message) -> bool
    ensures { result ≡ is_mine config.now iface dst message.now }
{
    match message {
        Message::Path(path) => dst == path.session.group,
        Message::PathTear(tear) => dst == tear.session.group,
        _ => dst == config.own(iface),
    }
}
