//! Errors and confirmations arrive, and bytes that spell no message.
ghost use Rattle.std.specs.Prelude.{◌≡◌, ℕ, fold};
ghost use Rattle.rsvp_base.specs.declared.session.Sender.{Sender as Sending};
ghost use Rattle.rsvp_messages.specs.declared.message.Message.TheVariants as message_of;
ghost use Rattle.router_rules.specs.Inputs.{Came, Spelt, Unspelt};
ghost use Rattle.router_rules.specs.NodeConfig.{own};
ghost use Rattle.router_rules.specs.Rule.{facts_after, heard_after, sent_after};
ghost use Rattle.router_state.specs.State.{Said, facts_at, facts_of};
ghost use Rattle.laws_sends.specs.Changed.{IsChangedFor};
ghost use Rattle.router_state.specs.Whole.{state_of};
ghost use Rattle.router_rounds.specs.Steps.{AreSound};
ghost use Rattle.error_sends.specs.ResvErrs.{resv_err_facts, resv_err_heard};
ghost use Rattle.router_arrivals.specs.Arriving.{to_node};

use crate::node::Node;
use crate::telling::tell_resv_err;
use error_sends::{answer_unspelt, pass_path_err, pass_resv_conf, set_blockades};
use resv_sends::{PriorOffer, offered};
use router_rules::{Heard, Outbox};
use router_state::Tables;
use rsvp_base::{Addr, Sender};
use rsvp_messages::{MsgErr, PathErrMsg, ResvConfMsg, ResvErrMsg};

impl Node {
    /// A PathErr arrives by an interface, to the node's own address there (RFC 2205, 3.1.7; RFC 2209, 2: PATH ERROR MESSAGE
    /// ARRIVES). It goes on toward its sender, and changes nothing.
    pub fn path_err<O: Outbox>(&self, iface: u8, message: &PathErrMsg, out: &mut O) -> Heard
        ensures facts { (c : ℕ) → facts_at c self.now ≡ facts_after self.now.place self.now.place c (to_node self.now.place iface (message_of.PathErr message.now)) (facts_at c self.now) }
        ensures heard { (c : ℕ) → result ≡ heard_after self.now.place c iface (own self.now.place iface) (Spelt (message_of.PathErr message.now)) (facts_at c self.now) }
        ensures sent { (c : ℕ) → out.new ≡ fold O.posted out.old (sent_after self.now.place self.now.place c (to_node self.now.place iface (message_of.PathErr message.now)) (facts_at c self.now)) }
    {
        let tables = &self.tables;
        pass_path_err(
            &tables.config,
            &tables.senders,
            &tables.paths,
            iface,
            message,
            out,
        )
    }

    /// A ResvConf arrives by an interface, to the node's own address there (RFC 2205, 2.6; RFC 2209, 2: RESV CONFIRM ARRIVES).
    /// It goes on to those who wished it, and changes nothing.
    pub fn resv_conf<O: Outbox>(&self, iface: u8, message: &ResvConfMsg, out: &mut O) -> Heard
        ensures facts { (c : ℕ) → facts_at c self.now ≡ facts_after self.now.place self.now.place c (to_node self.now.place iface (message_of.ResvConf message.now)) (facts_at c self.now) }
        ensures heard { (c : ℕ) → result ≡ heard_after self.now.place c iface (own self.now.place iface) (Spelt (message_of.ResvConf message.now)) (facts_at c self.now) }
        ensures sent { (c : ℕ) → out.new ≡ fold O.posted out.old (sent_after self.now.place self.now.place c (to_node self.now.place iface (message_of.ResvConf message.now)) (facts_at c self.now)) }
    {
        let tables = &self.tables;
        pass_resv_conf(
            &tables.config,
            &tables.wild,
            &tables.fixed,
            &tables.shared,
            message,
            out,
        )
    }

    /// A ResvErr arrives by an interface, to the node's own address there (RFC 2205, 3.1.8 and 3.5; RFC 2209, 2: RESV ERROR
    /// MESSAGE ARRIVES). Where a previous hop of its session sent it, it sets the blockades that an admission control failure
    /// asks for, if all have room, and goes on to the next hops that it concerns; the previous hops are told what changed.
    pub fn resv_err<O: Outbox>(&mut self, iface: u8, message: &ResvErrMsg, out: &mut O) -> Heard
        ensures facts { (c : ℕ) → facts_at c self.new ≡ facts_after self.old.place self.old.place c (to_node self.old.place iface (message_of.ResvErr message.now)) (facts_at c self.old) }
        ensures heard { (c : ℕ) → result ≡ heard_after self.old.place c iface (own self.old.place iface) (Spelt (message_of.ResvErr message.now)) (facts_at c self.old) }
        ensures sent { (c : ℕ) → out.new ≡ fold O.posted out.old (sent_after self.old.place self.old.place c (to_node self.old.place iface (message_of.ResvErr message.now)) (facts_at c self.old)) }
        ensures place { self.new.place ≡ self.old.place }
    {
        // No sender changes, so any will do.
        let session = message.session;
        let sender = Sender::default();
        let near = self.tables.paths.hops(session);
        let before = offered(&self.tables, session, sender);
        let heard = block(&mut self.tables, iface, message);
        let prior = PriorOffer {
            sender,
            offer: before,
            near,
        };
        tell_resv_err(
            &mut self.tables,
            &mut self.said,
            &prior,
            iface,
            message,
            heard,
            out,
        );
        heard
    }

    /// Bytes that spell no message come by an interface, to an address (RFC 2205, 3.10 and appendix B). They are answered where
    /// the fault has a code, and the hint whom to tell, and change nothing.
    pub fn unspelt<O: Outbox>(&self, iface: u8, dst: Addr, err: &MsgErr, out: &mut O) -> Heard
        ensures facts { (c : ℕ) → facts_at c self.now ≡ facts_after self.now.place self.now.place c (Came iface dst (Unspelt err.now)) (facts_at c self.now) }
        ensures heard { (c : ℕ) → result ≡ heard_after self.now.place c iface dst (Unspelt err.now) (facts_at c self.now) }
        ensures sent { (c : ℕ) → out.new ≡ fold O.posted out.old (sent_after self.now.place self.now.place c (Came iface dst (Unspelt err.now)) (facts_at c self.now)) }
    {
        answer_unspelt(&self.tables.config, iface, dst, err, out)
    }
}

// Sets the blockades of a ResvErr, where it is to. Nothing else changes, and nothing of other sessions.
fn block(tables: &mut Tables, iface: u8, message: &ResvErrMsg) -> Heard
    requires { AreSound tables.old }
    ensures heard { (c : ℕ) (said : Said) → result ≡ resv_err_heard c (state_of tables.old said) iface message.now }
    ensures facts { (c : ℕ) (said : Said) → facts_of c (state_of tables.new said) ≡ resv_err_facts c (state_of tables.old said) iface message.now }
    ensures change { (said : Said) (x : Sending) → IsChangedFor (message.now.session, x) (state_of tables.old said) (state_of tables.new said) }
    ensures sound { AreSound tables.new }
    ensures rest { tables.new ≡ record tables.old { walls = tables.new.walls } }
{
    set_blockades(
        &tables.config,
        &tables.paths,
        &mut tables.walls,
        iface,
        message,
    )
}
