//! Local receivers ask, and ask no more.
ghost use Rattle.std.specs.Prelude.{◌≡◌, ℕ, fold, None, Some, MatchResult, OnErr};
ghost use Rattle.router_rules.specs.Inputs.{Call, QuitAll, WantAs};
ghost use Rattle.router_rules.specs.Rule.{facts_after, refusal_of_call, sent_after};
ghost use Rattle.router_state.specs.State.{facts_at};

use crate::node::Node;
use resv_sends::{PriorOffer, offered, tell_sender};
use router_arrivals::{drop_wants, put_wants};
use router_rules::{LocalErr, Outbox};
use rsvp_base::{Flow, Sender, Senders, Session, StyleKind};

impl Node {
    /// A local receiver asks for a flow of a session and style, and whether it wants to hear that the reservation stands (RFC
    /// 2205, 3.11.1: RESERVE): for a wildcard filter of all senders, else of these, each a unit of its own for a fixed filter. A
    /// unit that is there is replaced. `Style` exactly where a local want of the session has another style; else `Full` exactly
    /// where it would be the first of a 33rd session, or the session would have a 17th unit; nothing changes and nothing is sent
    /// then.
    pub fn local_want<O: Outbox>(
        &mut self,
        session: Session,
        style: StyleKind,
        senders: &Senders,
        flow: Flow,
        confirm: bool,
        out: &mut O,
    ) -> Result<(), LocalErr>
        ensures refused { (c : ℕ)
            → MatchResult result (λ _. refusal_of_call self.old.place (WantAs session style senders.now flow confirm) (facts_at c self.old) ≡ None)
            (λ e. refusal_of_call self.old.place (WantAs session style senders.now flow confirm) (facts_at c self.old) ≡ Some e) }
        ensures facts { (c : ℕ) → facts_at c self.new ≡ facts_after self.old.place self.old.place c (Call (WantAs session style senders.now flow confirm)) (facts_at c self.old) }
        ensures sent { (c : ℕ) → out.new ≡ fold O.posted out.old (sent_after self.old.place self.old.place c (Call (WantAs session style senders.now flow confirm)) (facts_at c self.old)) }
        ensures place { self.new.place ≡ self.old.place }
        ensures kept { OnErr result (self.new ≡ self.old) }
        ensures silent { OnErr result (out.new ≡ out.old) }
    {
        // No sender changes, so any will do.
        let sender = Sender::default();
        let near = self.tables.paths.hops(session);
        let before = offered(&self.tables, session, sender);
        put_wants(&mut self.tables, session, style, senders, flow, confirm)?;
        let prior = PriorOffer {
            sender,
            offer: before,
            near,
        };
        tell_sender(&mut self.tables, &mut self.said, session, &prior, out);
        Ok(())
    }

    /// All local receivers of a session ask for nothing more (RFC 2205, 3.11.1: RELEASE). `Absent` exactly where it has none;
    /// nothing changes and nothing is sent then.
    pub fn local_quit<O: Outbox>(&mut self, session: Session, out: &mut O) -> Result<(), LocalErr>
        ensures refused { (c : ℕ)
            → MatchResult result (λ _. refusal_of_call self.old.place (QuitAll session) (facts_at c self.old) ≡ None)
            (λ e. refusal_of_call self.old.place (QuitAll session) (facts_at c self.old) ≡ Some e) }
        ensures facts { (c : ℕ) → facts_at c self.new ≡ facts_after self.old.place self.old.place c (Call (QuitAll session)) (facts_at c self.old) }
        ensures sent { (c : ℕ) → out.new ≡ fold O.posted out.old (sent_after self.old.place self.old.place c (Call (QuitAll session)) (facts_at c self.old)) }
        ensures place { self.new.place ≡ self.old.place }
        ensures kept { OnErr result (self.new ≡ self.old) }
        ensures silent { OnErr result (out.new ≡ out.old) }
    {
        // No sender changes, so any will do.
        let sender = Sender::default();
        let near = self.tables.paths.hops(session);
        let before = offered(&self.tables, session, sender);
        drop_wants(&mut self.tables, session)?;
        let prior = PriorOffer {
            sender,
            offer: before,
            near,
        };
        tell_sender(&mut self.tables, &mut self.said, session, &prior, out);
        Ok(())
    }
}
