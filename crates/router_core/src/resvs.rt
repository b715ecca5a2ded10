//! Resvs and ResvTears arrive.
ghost use Rattle.std.specs.Prelude.{◌≡◌, ◌<◌, ℕ, fold, length};
ghost use Rattle.rsvp_messages.specs.declared.message.Message.TheVariants as message_of;
ghost use Rattle.router_rules.specs.Inputs.{Spelt};
ghost use Rattle.router_rules.specs.NodeConfig.{own};
ghost use Rattle.router_rules.specs.Rule.{facts_after, heard_after, sent_after};
ghost use Rattle.router_state.specs.State.{facts_at};
ghost use Rattle.router_arrivals.specs.Arriving.{to_node};

use crate::node::Node;
use crate::telling::{tell_answer, tell_resv};
use resv_sends::{PriorOffer, offered, tell_sender};
use router_arrivals::{take_resvs, tear_resvs};
use router_rules::{Heard, Outbox};
use rsvp_base::Sender;
use rsvp_messages::{ResvMsg, ResvTearMsg};

impl Node {
    /// A Resv arrives by one of the node's interfaces, to its own address there (RFC 2209, 2: RESV MESSAGE ARRIVES). Its units
    /// are taken, refused or left out; the refusals go back to the next hop, and the previous hops are told what changed. What
    /// was taken is confirmed where the Resv wishes for that and nothing goes on for it (RFC 2205, 2.6). One that only refreshes
    /// what stands changes nothing of what goes toward any hop, so that no lane is gone through for it.
    pub fn resv<O: Outbox>(&mut self, iface: u8, message: &ResvMsg, out: &mut O) -> Heard
        requires { iface < length self.old.place.ifaces }
        ensures facts { (c : ℕ) → facts_at c self.new ≡ facts_after self.old.place self.old.place c (to_node self.old.place iface (message_of.Resv message.now)) (facts_at c self.old) }
        ensures heard { (c : ℕ) → result ≡ heard_after self.old.place c iface (own self.old.place iface) (Spelt (message_of.Resv message.now)) (facts_at c self.old) }
        ensures sent { (c : ℕ) → out.new ≡ fold O.posted out.old (sent_after self.old.place self.old.place c (to_node self.old.place iface (message_of.Resv message.now)) (facts_at c self.old)) }
        ensures place { self.new.place ≡ self.old.place }
    {
        take_resvs(&mut self.tables, iface, message, &mut self.answer);
        let heard = self.answer.heard;
        let news = self.answer.done.news;
        if !news {
            tell_answer(&self.tables.config, iface, message, &self.answer, out);
            return heard;
        }
        // No sender changes, so any will do.
        let session = message.session;
        let sender = Sender::default();
        let near = self.tables.paths.hops(session);
        let before = offered(&self.tables, session, sender);
        let prior = PriorOffer {
            sender,
            offer: before,
            near,
        };
        tell_resv(
            &mut self.tables,
            &mut self.said,
            &prior,
            iface,
            message,
            &self.answer,
            out,
        );
        heard
    }

    /// A ResvTear arrives by an interface, to the node's own address there (RFC 2209, 2: RESV TEAR MESSAGE ARRIVES). Its senders
    /// leave the reservations of its next hop, session and style; the previous hops are told what changed.
    pub fn resv_tear<O: Outbox>(&mut self, iface: u8, message: &ResvTearMsg, out: &mut O) -> Heard
        ensures facts { (c : ℕ) → facts_at c self.new ≡ facts_after self.old.place self.old.place c (to_node self.old.place iface (message_of.ResvTear message.now)) (facts_at c self.old) }
        ensures heard { (c : ℕ) → result ≡ heard_after self.old.place c iface (own self.old.place iface) (Spelt (message_of.ResvTear message.now)) (facts_at c self.old) }
        ensures sent { (c : ℕ) → out.new ≡ fold O.posted out.old (sent_after self.old.place self.old.place c (to_node self.old.place iface (message_of.ResvTear message.now)) (facts_at c self.old)) }
        ensures place { self.new.place ≡ self.old.place }
    {
        // No sender changes, so any will do.
        let session = message.session;
        let sender = Sender::default();
        let near = self.tables.paths.hops(session);
        let before = offered(&self.tables, session, sender);
        let heard = tear_resvs(&mut self.tables, iface, message);
        let prior = PriorOffer {
            sender,
            offer: before,
            near,
        };
        tell_sender(&mut self.tables, &mut self.said, session, &prior, out);
        heard
    }
}
