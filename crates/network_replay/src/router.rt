//! What the world of a network asks of its routers.
ghost use Rattle.std.specs.Prelude.{◌≡◌, [], ◌<◌, ◌≤◌, ◌+◌, ◌*◌, ℕ, fold, length, map, MatchResult, None, Some, slice_get};
ghost use Rattle.router_rules.specs.Inputs.{Call, Came, Clear, Moved, Spelt, Unspelt, Wait};
ghost use Rattle.router_rules.specs.Rule.{facts_after, heard_after, refusal_of_call, sent_after};
ghost use Rattle.rsvp_messages.specs.Proper.{IsProper};
ghost use Rattle.std.specs.Option.{option_map};
ghost use Rattle.router_rules.specs.Adverts.{adverts_of};
ghost use Rattle.router_rules.specs.Books.{book};
ghost use Rattle.router_rules.specs.Flags.{entries_of};
ghost use Rattle.style_rules.specs.Lines.{held};
ghost use Rattle.router_rules.specs.Steps.{IsFitCall};
ghost use Rattle.network_replay.specs.Following.{AreProper, Seen};
ghost use Rattle.network_model.specs.Happenings.{call_of};
ghost use Rattle.network_replay.specs.Routed.{trees_in};

use network_model::LocalCall;
use router_rules::{Entry, Heard, LocalErr, Outbox, Route};
use rsvp_base::{Addr, Sender, Session};
use rsvp_messages::{Message, MsgErr};
use rsvp_objects::Adspec;

/// A router. Each call is the rule of a router (`router_rules`) for its input: the facts after it, what became of a datagram, and
/// what is sent, which is posted in its outbox in order. A router has no clock. It keeps how much is left of each lifetime, and
/// each clause holds whatever the clock is from which that is counted.
pub trait Router {
    /// Its interfaces, routes and period, and its facts, with moments counted from a clock.
    ghost seen: { Seen Self };

    /// A message comes by an interface, to an address.
    fn arrive<O: Outbox>(&mut self, iface: u8, dst: Addr, message: &Message, out: &mut O) -> Heard
        requires iface { iface < length (seen.place self.old).ifaces }
        requires proper { IsProper message.now }
        ensures place { seen.place self.new ≡ seen.place self.old }
        ensures facts { (c : ℕ) → seen.facts self.new c ≡ facts_after (seen.place self.old) (seen.place self.old) c (Came iface dst (Spelt message.now)) (seen.facts self.old c) }
        ensures heard { (c : ℕ) → result ≡ heard_after (seen.place self.old) c iface dst (Spelt message.now) (seen.facts self.old c) }
        ensures sent { (c : ℕ) → out.new ≡ fold O.posted out.old (sent_after (seen.place self.old) (seen.place self.old) c (Came iface dst (Spelt message.now)) (seen.facts self.old c)) }
        ensures fit { (c : ℕ) → AreProper (sent_after (seen.place self.old) (seen.place self.old) c (Came iface dst (Spelt message.now)) (seen.facts self.old c)) };

    /// Bytes that spell no message come by an interface, to an address.
    fn arrive_unspelt<O: Outbox>(
        &mut self,
        iface: u8,
        dst: Addr,
        fault: &MsgErr,
        out: &mut O,
    ) -> Heard
        requires { iface < length (seen.place self.old).ifaces }
        ensures place { seen.place self.new ≡ seen.place self.old }
        ensures facts { (c : ℕ) → seen.facts self.new c ≡ facts_after (seen.place self.old) (seen.place self.old) c (Came iface dst (Unspelt fault.now)) (seen.facts self.old c) }
        ensures heard { (c : ℕ) → result ≡ heard_after (seen.place self.old) c iface dst (Unspelt fault.now) (seen.facts self.old c) }
        ensures sent { (c : ℕ) → out.new ≡ fold O.posted out.old (sent_after (seen.place self.old) (seen.place self.old) c (Came iface dst (Unspelt fault.now)) (seen.facts self.old c)) }
        ensures fit { (c : ℕ) → AreProper (sent_after (seen.place self.old) (seen.place self.old) c (Came iface dst (Unspelt fault.now)) (seen.facts self.old c)) };

    /// Time passes, at most half a period: `ms` milliseconds.
    fn wait<O: Outbox>(&mut self, ms: u32, word: u32, out: &mut O)
        requires { ms ≤ 2 * (seen.place self.old).quarter }
        ensures place { seen.place self.new ≡ seen.place self.old }
        ensures facts { (c : ℕ) → seen.facts self.new (c + ms) ≡ facts_after (seen.place self.old) (seen.place self.old) (c + ms) (Wait ms word) (seen.facts self.old c) }
        ensures sent { (c : ℕ) → out.new ≡ fold O.posted out.old (sent_after (seen.place self.old) (seen.place self.old) (c + ms) (Wait ms word) (seen.facts self.old c)) }
        ensures fit { (c : ℕ) → AreProper (sent_after (seen.place self.old) (seen.place self.old) (c + ms) (Wait ms word) (seen.facts self.old c)) };

    /// An application asks something of it. A refusal is that of the rule; nothing changes and nothing is sent then.
    fn call<O: Outbox>(&mut self, call: &LocalCall, out: &mut O) -> Result<(), LocalErr>
        requires { IsFitCall (call_of call.now) }
        ensures place { seen.place self.new ≡ seen.place self.old }
        ensures refused { (c : ℕ)
            → MatchResult result (λ _. refusal_of_call (seen.place self.old) (call_of call.now) (seen.facts self.old c) ≡ None)
            (λ e. refusal_of_call (seen.place self.old) (call_of call.now) (seen.facts self.old c) ≡ Some e) }
        ensures facts { (c : ℕ) → seen.facts self.new c ≡ facts_after (seen.place self.old) (seen.place self.old) c (Call (call_of call.now)) (seen.facts self.old c) }
        ensures sent { (c : ℕ) → out.new ≡ fold O.posted out.old (sent_after (seen.place self.old) (seen.place self.old) c (Call (call_of call.now)) (seen.facts self.old c)) }
        ensures fit { (c : ℕ) → AreProper (sent_after (seen.place self.old) (seen.place self.old) c (Call (call_of call.now)) (seen.facts self.old c)) };

    /// It forgets all but its local senders and wants, and sends nothing.
    fn clear(&mut self)
        ensures place { seen.place self.new ≡ seen.place self.old }
        ensures facts { (c : ℕ) → seen.facts self.new c ≡ facts_after (seen.place self.old) (seen.place self.old) c Clear (seen.facts self.old c) }
        ensures silent { (c : ℕ) → sent_after (seen.place self.old) (seen.place self.old) c Clear (seen.facts self.old c) ≡ [] };

    /// Its routes change: from now on they are these, one for each tree of which it had one, in the same order (RFC 2205, 3.6; RFC 2209, 2: ROUTE CHANGE NOTIFICATION).
    fn route<O: Outbox>(&mut self, routes: &[Route], out: &mut O)
        requires { trees_in (seen.place self.old).routes ≡ trees_in routes.now }
        ensures place { seen.place self.new ≡ record (seen.place self.old) { routes = routes.now } }
        ensures facts { (c : ℕ) → seen.facts self.new c ≡ facts_after (seen.place self.old) (seen.place self.new) c Moved (seen.facts self.old c) }
        ensures sent { (c : ℕ) → out.new ≡ fold O.posted out.old (sent_after (seen.place self.old) (seen.place self.new) c Moved (seen.facts self.old c)) }
        ensures fit { (c : ℕ) → AreProper (sent_after (seen.place self.old) (seen.place self.new) c Moved (seen.facts self.old c)) };

    /// The sum of the rates of the entries in an interface's book, in bytes per second.
    fn held(&self, iface: u8) -> u64
        ensures { (c : ℕ) → result ≡ held (book (seen.facts self.now c) iface) };

    /// The k-th entry of an interface's book by session, style and unit, from 0, with its policing flags. `None` exactly where k
    /// is not below their number, which is at most 3,072.
    fn entry(&self, iface: u8, k: usize) -> Option<Entry>
        ensures entry { (c : ℕ) → result ≡ slice_get (entries_of (seen.place self.now) (seen.facts self.now c) iface) k }
        ensures few { (c : ℕ) → length (entries_of (seen.place self.now) (seen.facts self.now c) iface) ≤ 3072 };

    /// The k-th path by session and sender, from 0, of those that came by an interface and keep an ADSPEC, with that ADSPEC. `None`
    /// exactly where k is not below their number, which is at most 512.
    fn advert_at(&self, iface: u8, k: usize) -> Option<(Session, Sender, Adspec)>
        ensures advert { (c : ℕ) → option_map (λ a. ((a.0, a.1), a.2)) result ≡ slice_get (adverts_of (seen.facts self.now c) iface) k }
        ensures few { (c : ℕ) → length (adverts_of (seen.facts self.now c) iface) ≤ 512 };
}
