//! Paths and PathTears arrive.
ghost use Rattle.std.specs.Prelude.{◌≡◌, ℕ, true, fold, is_some, Some, IfOk, IfErr, IfSome};
ghost use Rattle.std.specs.Option.{option_map};
ghost use Rattle.rsvp_base.specs.Table.{get, has};
ghost use Rattle.rsvp_messages.specs.declared.message.Message.TheVariants as message_of;
ghost use Rattle.router_rules.specs.Act.{act};
ghost use Rattle.router_rules.specs.Inputs.{Spelt, only_heard};
ghost use Rattle.router_rules.specs.NodeConfig.{comes_in};
ghost use Rattle.router_rules.specs.Paths.{is_path_by};
ghost use Rattle.router_rules.specs.Rule.{facts_after, heard_after, sent_after};
ghost use Rattle.router_state.specs.Changes.{path_came, tear_came};
ghost use Rattle.router_rules.specs.declared.answers.Heard.TheVariants.{Dropped};
ghost use Rattle.router_state.specs.State.{State, facts_at, facts_of};
ghost use Rattle.path_sends.specs.Renewing.{AreNews, offer_by, own_of};
ghost use Rattle.path_state.specs.declared.fact.PathFact.{PathFact};

use crate::node::Node;
use path_sends::{Renewal, tell_renewal};
use resv_sends::{PriorOffer, offered, tell_sender};
use router_arrivals::{drop_path, has_path_by, learn_path, path_by, renew_path, repeat_path};
use router_rules::{Heard, Outbox, Why};
use router_state::{Config, Tables};
use rsvp_base::{Flow, Sender};
use rsvp_messages::{PathMsg, PathTearMsg};

impl Node {
    /// A Path arrives by an interface, to the group of its session (RFC 2209, 2: Path). It is taken where it names a sender,
    /// came by the interface that leads to it, and there is room for it.
    pub fn path<O: Outbox>(&mut self, iface: u8, message: &PathMsg, out: &mut O) -> Heard
        ensures facts { (c : ℕ) → facts_at c self.new ≡ facts_after self.old.place self.old.place c (path_came iface message.now) (facts_at c self.old) }
        ensures heard { (c : ℕ) → result ≡ heard_after self.old.place c iface message.now.session.group (Spelt (message_of.Path message.now)) (facts_at c self.old) }
        ensures sent { (c : ℕ) → out.new ≡ fold O.posted out.old (sent_after self.old.place self.old.place c (path_came iface message.now) (facts_at c self.old)) }
        ensures place { self.new.place ≡ self.old.place }
    {
        let (sender, tspec) = match inward_sender(&self.tables.config, iface, message) {
            Ok(named) => named,
            Err(why) => return Heard::Dropped(why),
        };
        if repeat_path(&mut self.tables, iface, message, sender, tspec) {
            return Heard::Taken;
        }
        self.take_path(iface, message, sender, tspec, out)
    }

    // A Path arrives by the interface that leads to its sender. It is taken where there is room for it.
    fn take_path<O: Outbox>(
        &mut self,
        iface: u8,
        message: &PathMsg,
        sender: Sender,
        tspec: Flow,
        out: &mut O,
    ) -> Heard
        requires sender { message.now.sender ≡ Some (sender, tspec) }
        requires inward { comes_in self.old.place message.now.session iface sender ≡ true }
        ensures facts { (c : ℕ) → facts_at c self.new ≡ facts_after self.old.place self.old.place c (path_came iface message.now) (facts_at c self.old) }
        ensures heard { (c : ℕ) → result ≡ heard_after self.old.place c iface message.now.session.group (Spelt (message_of.Path message.now)) (facts_at c self.old) }
        ensures sent { (c : ℕ) → out.new ≡ fold O.posted out.old (sent_after self.old.place self.old.place c (path_came iface message.now) (facts_at c self.old)) }
        ensures place { self.new.place ≡ self.old.place }
    {
        let session = message.session;
        if let Some(renewal) = renewal_by(&self.tables, iface, message, sender, tspec) {
            return self.renew_path(iface, message, sender, tspec, &renewal, out);
        }
        let near = self.tables.paths.hops(session);
        let before = offered(&self.tables, session, sender);
        if !learn_path(&mut self.tables, iface, message, sender, tspec) {
            return Heard::Dropped(Why::Full);
        }
        let prior = PriorOffer {
            sender,
            offer: before,
            near,
        };
        tell_sender(&mut self.tables, &mut self.said, session, &prior, out);
        Heard::Taken
    }

    // A Path arrives from the hop that the path of its sender came from. The path is kept anew, and what goes toward each hop
    // is what went there before: no lane is gone through, and a Path goes on only by interfaces that send another flow or ADSPEC.
    fn renew_path<O: Outbox>(
        &mut self,
        iface: u8,
        message: &PathMsg,
        sender: Sender,
        tspec: Flow,
        renewal: &Option<Renewal>,
        out: &mut O,
    ) -> Heard
        requires sender { message.now.sender ≡ Some (sender, tspec) }
        requires inward { comes_in self.old.place message.now.session iface sender ≡ true }
        requires news { (was : PathFact) → option_map (λ e. e.0) (get self.old.paths (message.now.session, sender)) ≡ Some was
            → AreNews renewal.now (offer_by (own_of (has self.old.advertised (message.now.session, sender)) (get self.old.senders (message.now.session, sender))) was.tspec was.adspec)
            (offer_by (own_of (has self.old.advertised (message.now.session, sender)) (get self.old.senders (message.now.session, sender))) tspec message.now.adspec) }
        requires stands { (c : ℕ) → is_path_by (iface, message.now.hop.addr) (get (facts_of c self.old).paths (message.now.session, sender)) ≡ true }
        ensures facts { (c : ℕ) → facts_at c self.new ≡ facts_after self.old.place self.old.place c (path_came iface message.now) (facts_at c self.old) }
        ensures heard { (c : ℕ) → result ≡ heard_after self.old.place c iface message.now.session.group (Spelt (message_of.Path message.now)) (facts_at c self.old) }
        ensures sent { (c : ℕ) → out.new ≡ fold O.posted out.old (sent_after self.old.place self.old.place c (path_came iface message.now) (facts_at c self.old)) }
        ensures place { self.new.place ≡ self.old.place }
    {
        renew_path(&mut self.tables, iface, message, sender, tspec);
        tell_renewal(&self.tables.config, message.session, sender, renewal, out);
        Heard::Taken
    }

    /// A PathTear arrives by an interface, to the group of its session (RFC 2209, 2: PathTear). It is taken where it names a
    /// sender, and comes from the hop that its path came from.
    pub fn path_tear<O: Outbox>(&mut self, iface: u8, message: &PathTearMsg, out: &mut O) -> Heard
        ensures facts { (c : ℕ) → facts_at c self.new ≡ facts_after self.old.place self.old.place c (tear_came iface message.now) (facts_at c self.old) }
        ensures heard { (c : ℕ) → result ≡ heard_after self.old.place c iface message.now.session.group (Spelt (message_of.PathTear message.now)) (facts_at c self.old) }
        ensures sent { (c : ℕ) → out.new ≡ fold O.posted out.old (sent_after self.old.place self.old.place c (tear_came iface message.now) (facts_at c self.old)) }
        ensures place { self.new.place ≡ self.old.place }
    {
        let session = message.session;
        let hop = message.hop.addr;
        let near = self.tables.paths.hops(session);
        let Some(sender) = message.sender else {
            return Heard::Dropped(Why::NoSender);
        };
        if !has_path_by(&self.tables.paths, session, sender, iface, hop) {
            return Heard::Dropped(Why::NoState);
        }
        let before = offered(&self.tables, session, sender);
        drop_path(&mut self.tables, session, sender);
        let prior = PriorOffer {
            sender,
            offer: before,
            near,
        };
        tell_sender(&mut self.tables, &mut self.said, session, &prior, out);
        Heard::Taken
    }
}

// What is new about a sender whose path came by the hop that a Path comes from. `None`: its path came by another one, or it has none.
fn renewal_by(
    tables: &Tables,
    iface: u8,
    message: &PathMsg,
    sender: Sender,
    tspec: Flow,
) -> Option<Option<Renewal>>
    ensures by { (c : ℕ) (n : State) → n.paths ≡ tables.now.paths.facts
        → is_some result ≡ is_path_by (iface, message.now.hop.addr) (get (facts_of c n).paths (message.now.session, sender)) }
    ensures news { IfSome result (λ r. (was : PathFact) → option_map (λ e. e.0) (get tables.now.paths.facts (message.now.session, sender)) ≡ Some was
        → AreNews r (offer_by (own_of (has tables.now.senders.advertised (message.now.session, sender)) (get tables.now.senders.tspecs (message.now.session, sender))) was.tspec was.adspec)
        (offer_by (own_of (has tables.now.senders.advertised (message.now.session, sender)) (get tables.now.senders.tspecs (message.now.session, sender))) tspec message.now.adspec)) }
{
    let session = message.session;
    let Some(was) = path_by(&tables.paths, session, sender, iface, message.hop.addr) else {
        return None;
    };
    let local = tables.senders.find(session, sender).is_some();
    Some(Renewal::of(local, was, tspec, &message.adspec))
}

// The sender that a Path names, and its flow, where the Path came by the interface that leads to it; else why it is dropped.
fn inward_sender(config: &Config, iface: u8, message: &PathMsg) -> Result<(Sender, Flow), Why>
    ensures ok { IfOk result (λ x. (message.now.sender ≡ Some x) × (comes_in config.now message.now.session iface x.0 ≡ true)) }
    ensures err { IfErr result (λ why. (c : ℕ) (n : State) → n.place ≡ config.now → act n.place c (path_came iface message.now) (facts_of c n) ≡ only_heard (Dropped why) (facts_of c n)) }
{
    let Some((sender, tspec)) = message.sender else {
        return Err(Why::NoSender);
    };
    if !config.comes_in(message.session, iface, sender) {
        return Err(Why::NotInward);
    }
    Ok((sender, tspec))
}
