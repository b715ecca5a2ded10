//! What a network asks of a router.
ghost use Rattle.std.specs.Prelude.{◌≡◌, ℕ, fold, None, Some, MatchResult, OnErr};
ghost use Rattle.router_rules.specs.Inputs.{Call};
ghost use Rattle.router_rules.specs.Rule.{facts_after, refusal_of_call, sent_after};
ghost use Rattle.router_rules.specs.Steps.{IsFitCall};
ghost use Rattle.router_state.specs.State.{facts_at};
ghost use Rattle.network_model.specs.Happenings.{call_of};
ghost use Rattle.network_replay.specs.Following.{AreProper};

use crate::live_router::LiveRouter;
use network_model::LocalCall;
use network_replay::Router;
use router_rules::{Entry, Heard, LocalErr, Outbox, Route};
use rsvp_base::{Addr, Sender, Session};
use rsvp_messages::{Message, MsgErr};
use rsvp_objects::Adspec;
use std::mem;

impl Router for LiveRouter {
    ghost use Rattle.live_router.specs.SeenNode.{seen_node};

    ghost seen = { seen_node };

    fn arrive<O: Outbox>(&mut self, iface: u8, dst: Addr, message: &Message, out: &mut O) -> Heard {
        self.node.arrive(iface, dst, message, out)
    }

    fn arrive_unspelt<O: Outbox>(
        &mut self,
        iface: u8,
        dst: Addr,
        fault: &MsgErr,
        out: &mut O,
    ) -> Heard {
        self.node.unspelt(iface, dst, fault, out)
    }

    fn wait<O: Outbox>(&mut self, ms: u32, word: u32, out: &mut O) {
        self.node.wait(ms, word, out);
    }

    /// An application asks something of it. A refused call leaves all as it was, at every clock, and nothing is sent.
    fn call<O: Outbox>(&mut self, call: &LocalCall, out: &mut O) -> Result<(), LocalErr>
        requires { IsFitCall (call_of call.now) }
        ensures place { self.new.place ≡ self.old.place }
        ensures refused { (c : ℕ)
            → MatchResult result (λ _. refusal_of_call self.old.place (call_of call.now) (facts_at c self.old) ≡ None)
            (λ e. refusal_of_call self.old.place (call_of call.now) (facts_at c self.old) ≡ Some e) }
        ensures facts { (c : ℕ) → facts_at c self.new ≡ facts_after self.old.place self.old.place c (Call (call_of call.now)) (facts_at c self.old) }
        ensures sent { (c : ℕ) → out.new ≡ fold O.posted out.old (sent_after self.old.place self.old.place c (Call (call_of call.now)) (facts_at c self.old)) }
        ensures fit { (c : ℕ) → AreProper (sent_after self.old.place self.old.place c (Call (call_of call.now)) (facts_at c self.old)) }
        ensures kept { OnErr result (self.new ≡ self.old) }
        ensures silent { OnErr result (out.new ≡ out.old) }
    {
        match call {
            LocalCall::Send {
                session,
                sender,
                flow,
            } => self.node.local_send(*session, *sender, *flow, out),
            LocalCall::Advert { session, sender } => {
                self.node.local_advert(*session, *sender, out)
            }
            LocalCall::Gone { session, sender } => self.node.local_drop(*session, *sender, out),
            LocalCall::Want {
                session,
                style,
                senders,
                flow,
                confirm,
            } => self
                .node
                .local_want(*session, *style, senders, *flow, *confirm, out),
            LocalCall::Quit { session } => self.node.local_quit(*session, out),
        }
    }

    fn clear(&mut self) {
        self.node.clear();
    }

    fn route<O: Outbox>(&mut self, routes: &[Route], out: &mut O) {
        self.spare.copy_from_slice(routes);
        let next = mem::replace(&mut self.spare, Vec::new(self.alloc));
        self.spare = self.node.route(next, out);
    }

    fn held(&self, iface: u8) -> u64 {
        self.node.held(iface)
    }

    fn entry(&self, iface: u8, k: usize) -> Option<Entry> {
        self.node.entry_at(iface, k)
    }

    fn advert_at(&self, iface: u8, k: usize) -> Option<(Session, Sender, Adspec)> {
        self.node.advert_at(iface, k)
    }
}
