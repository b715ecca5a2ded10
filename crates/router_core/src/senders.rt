//! Local senders come, are advertised, and go.
ghost use Rattle.std.specs.Prelude.{◌≡◌, ℕ, fold, None, Some, MatchResult, OnErr};
ghost use Rattle.router_rules.specs.Inputs.{AdvertAs, Call, DropAs, SendAs};
ghost use Rattle.router_rules.specs.Rule.{facts_after, refusal_of_call, sent_after};
ghost use Rattle.router_state.specs.State.{facts_at};

use crate::node::Node;
use resv_sends::{PriorOffer, offered, tell_sender};
use router_arrivals::{advertise_sender, drop_sender, keep_sender};
use router_rules::{LocalErr, Outbox};
use rsvp_base::{Flow, Sender, Session};

impl Node {
    /// A local sender begins, or sends something else from now on. `NotMine` exactly where no interface has its address, else
    /// `Full` exactly where it would be the first of a 33rd session or the 17th of its session; nothing changes and nothing is
    /// sent then.
    pub fn local_send<O: Outbox>(
        &mut self,
        session: Session,
        sender: Sender,
        tspec: Flow,
        out: &mut O,
    ) -> Result<(), LocalErr>
        ensures refused { (c : ℕ)
            → MatchResult result (λ _. refusal_of_call self.old.place (SendAs session sender tspec) (facts_at c self.old) ≡ None)
            (λ e. refusal_of_call self.old.place (SendAs session sender tspec) (facts_at c self.old) ≡ Some e) }
        ensures facts { (c : ℕ) → facts_at c self.new ≡ facts_after self.old.place self.old.place c (Call (SendAs session sender tspec)) (facts_at c self.old) }
        ensures sent { (c : ℕ) → out.new ≡ fold O.posted out.old (sent_after self.old.place self.old.place c (Call (SendAs session sender tspec)) (facts_at c self.old)) }
        ensures place { self.new.place ≡ self.old.place }
        ensures kept { OnErr result (self.new ≡ self.old) }
        ensures silent { OnErr result (out.new ≡ out.old) }
    {
        let near = self.tables.paths.hops(session);
        if !self.tables.config.is_own(sender.addr) {
            return Err(LocalErr::NotMine);
        }
        let before = offered(&self.tables, session, sender);
        if !keep_sender(&mut self.tables, session, sender, tspec) {
            return Err(LocalErr::Full);
        }
        let prior = PriorOffer {
            sender,
            offer: before,
            near,
        };
        tell_sender(&mut self.tables, &mut self.said, session, &prior, out);
        Ok(())
    }

    /// The node tells what the path of a local sender offers, until it ends: its Paths have an ADSPEC from now on (RFC 2210, 3.3).
    /// `Absent` exactly where there is no such local sender; nothing changes and nothing is sent then.
    pub fn local_advert<O: Outbox>(
        &mut self,
        session: Session,
        sender: Sender,
        out: &mut O,
    ) -> Result<(), LocalErr>
        ensures refused { (c : ℕ)
            → MatchResult result (λ _. refusal_of_call self.old.place (AdvertAs session sender) (facts_at c self.old) ≡ None)
            (λ e. refusal_of_call self.old.place (AdvertAs session sender) (facts_at c self.old) ≡ Some e) }
        ensures facts { (c : ℕ) → facts_at c self.new ≡ facts_after self.old.place self.old.place c (Call (AdvertAs session sender)) (facts_at c self.old) }
        ensures sent { (c : ℕ) → out.new ≡ fold O.posted out.old (sent_after self.old.place self.old.place c (Call (AdvertAs session sender)) (facts_at c self.old)) }
        ensures place { self.new.place ≡ self.old.place }
        ensures kept { OnErr result (self.new ≡ self.old) }
        ensures silent { OnErr result (out.new ≡ out.old) }
    {
        let near = self.tables.paths.hops(session);
        let before = offered(&self.tables, session, sender);
        if !advertise_sender(&mut self.tables, session, sender) {
            return Err(LocalErr::Absent);
        }
        let prior = PriorOffer {
            sender,
            offer: before,
            near,
        };
        tell_sender(&mut self.tables, &mut self.said, session, &prior, out);
        Ok(())
    }

    /// A local sender ends. `Absent` exactly where there is no such local sender; nothing changes and nothing is sent then.
    pub fn local_drop<O: Outbox>(
        &mut self,
        session: Session,
        sender: Sender,
        out: &mut O,
    ) -> Result<(), LocalErr>
        ensures refused { (c : ℕ)
            → MatchResult result (λ _. refusal_of_call self.old.place (DropAs session sender) (facts_at c self.old) ≡ None)
            (λ e. refusal_of_call self.old.place (DropAs session sender) (facts_at c self.old) ≡ Some e) }
        ensures facts { (c : ℕ) → facts_at c self.new ≡ facts_after self.old.place self.old.place c (Call (DropAs session sender)) (facts_at c self.old) }
        ensures sent { (c : ℕ) → out.new ≡ fold O.posted out.old (sent_after self.old.place self.old.place c (Call (DropAs session sender)) (facts_at c self.old)) }
        ensures place { self.new.place ≡ self.old.place }
        ensures kept { OnErr result (self.new ≡ self.old) }
        ensures silent { OnErr result (out.new ≡ out.old) }
    {
        let near = self.tables.paths.hops(session);
        let before = offered(&self.tables, session, sender);
        if !drop_sender(&mut self.tables, session, sender) {
            return Err(LocalErr::Absent);
        }
        let prior = PriorOffer {
            sender,
            offer: before,
            near,
        };
        tell_sender(&mut self.tables, &mut self.said, session, &prior, out);
        Ok(())
    }
}
