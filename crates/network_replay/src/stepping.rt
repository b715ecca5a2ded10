//! Steps of a network, over its nodes and its mail.
ghost use Rattle.std.specs.Prelude.{◌≡◌, ◌≤◌, ◌*◌, [], ℕ, fold, length, map, Some, vec_len, ◌<◌};
ghost use Rattle.std.specs.List.{All};
ghost use Rattle.network_flight.specs.Steps.{At, ClearAt, Deliver, Piece, next_state, sent, state_after, step, word_of_state};
ghost use Rattle.network_flight.specs.Worlds.{World as AWorld};
ghost use Rattle.network_replay.specs.Posting.{with_post};
ghost use Rattle.network_replay.specs.Agreeing.{AreNodes, AreReady, AreWired};
ghost use Rattle.network_replay.specs.Due.{IsDue, heard_of};
ghost use Rattle.network_replay.specs.Following.{AreSpelt, IsArrival};
ghost use Rattle.network_replay.specs.Mailing.{ArePut};
ghost use Rattle.router_rules.specs.Inputs.{Arrival, Came, Spelt, Unspelt};
ghost use Rattle.rsvp_messages.specs.Proper.{IsProper};
ghost use Rattle.router_rules.specs.Steps.{IsFitCall};
ghost use Rattle.network_model.specs.Happenings.{call_of};
ghost use Rattle.router_rules.specs.Rule.{facts_after, heard_after, sent_after};

use crate::mail::Mail;
use crate::router::Router;
use message_codec::decode;
use network_model::LocalCall;
use router_rules::Heard;
use rsvp_base::Addr;
use rsvp_messages::{Message, MsgErr};

/// A node takes in the bytes of a datagram.
pub(crate) fn take_in<R: Router>(
    node: &mut R,
    iface: u8,
    dst: Addr,
    bytes: &[u8],
    mail: &mut Mail,
) -> Heard
    requires { iface < length (R.seen.place node.old).ifaces }
    ensures place { R.seen.place node.new ≡ R.seen.place node.old }
    ensures facts { (c : ℕ) (a : Arrival) → IsArrival bytes.now a
        → R.seen.facts node.new c ≡ facts_after (R.seen.place node.old) (R.seen.place node.old) c (Came iface dst a) (R.seen.facts node.old c) }
    ensures heard { (c : ℕ) (a : Arrival) → IsArrival bytes.now a → result ≡ heard_after (R.seen.place node.old) c iface dst a (R.seen.facts node.old c) }
    ensures sent { (c : ℕ) (a : Arrival) → IsArrival bytes.now a
        → mail.new
        ≡ fold with_post mail.old (sent_after (R.seen.place node.old) (R.seen.place node.old) c (Came iface dst a) (R.seen.facts node.old c)) }
    ensures net { mail.new.net ≡ mail.old.net }
    ensures fit { (c : ℕ) (a : Arrival) → IsArrival bytes.now a → AreSpelt (sent_after (R.seen.place node.old) (R.seen.place node.old) c (Came iface dst a) (R.seen.facts node.old c)) }
{
    // The proof sees here that what is in flight has room.
    let _wires = mail.wires();
    let read = decode(bytes);
    match &read {
        Ok(message) => arrive(node, iface, dst, message, mail),
        Err(fault) => arrive_unspelt(node, iface, dst, fault, mail),
    }
}

// A message comes to a node.
fn arrive<R: Router>(
    node: &mut R,
    iface: u8,
    dst: Addr,
    message: &Message,
    mail: &mut Mail,
) -> Heard
    requires iface { iface < length (R.seen.place node.old).ifaces }
    requires proper { IsProper message.now }
    requires room { length mail.old.flight ≤ 8192 }
    ensures place { R.seen.place node.new ≡ R.seen.place node.old }
    ensures facts { (c : ℕ) → R.seen.facts node.new c ≡ facts_after (R.seen.place node.old) (R.seen.place node.old) c (Came iface dst (Spelt message.now)) (R.seen.facts node.old c) }
    ensures heard { (c : ℕ) → result ≡ heard_after (R.seen.place node.old) c iface dst (Spelt message.now) (R.seen.facts node.old c) }
    ensures sent { (c : ℕ) → mail.new ≡ fold with_post mail.old (sent_after (R.seen.place node.old) (R.seen.place node.old) c (Came iface dst (Spelt message.now)) (R.seen.facts node.old c)) }
    ensures fit { (c : ℕ) → AreSpelt (sent_after (R.seen.place node.old) (R.seen.place node.old) c (Came iface dst (Spelt message.now)) (R.seen.facts node.old c)) }
{
    let heard = node.arrive(iface, dst, message, mail);
    // The proof sees here that what was posted is in range.
    let _full = mail.is_full();
    heard
}

// Bytes that spell no message come to a node.
fn arrive_unspelt<R: Router>(
    node: &mut R,
    iface: u8,
    dst: Addr,
    fault: &MsgErr,
    mail: &mut Mail,
) -> Heard
    requires iface { iface < length (R.seen.place node.old).ifaces }
    requires room { length mail.old.flight ≤ 8192 }
    ensures place { R.seen.place node.new ≡ R.seen.place node.old }
    ensures facts { (c : ℕ) → R.seen.facts node.new c ≡ facts_after (R.seen.place node.old) (R.seen.place node.old) c (Came iface dst (Unspelt fault.now)) (R.seen.facts node.old c) }
    ensures heard { (c : ℕ) → result ≡ heard_after (R.seen.place node.old) c iface dst (Unspelt fault.now) (R.seen.facts node.old c) }
    ensures sent { (c : ℕ) → mail.new ≡ fold with_post mail.old (sent_after (R.seen.place node.old) (R.seen.place node.old) c (Came iface dst (Unspelt fault.now)) (R.seen.facts node.old c)) }
    ensures fit { (c : ℕ) → AreSpelt (sent_after (R.seen.place node.old) (R.seen.place node.old) c (Came iface dst (Unspelt fault.now)) (R.seen.facts node.old c)) }
{
    let heard = node.arrive_unspelt(iface, dst, fault, mail);
    // The proof sees here that what was posted is in range.
    let _full = mail.is_full();
    heard
}

/// A datagram that was in flight comes to its node, which posts what it sends for it. `None` exactly where it comes to no node.
pub(crate) fn hand_over<R: Router>(
    nodes: &mut Vec<R>,
    mail: &mut Mail,
    end: u16,
    dst: Addr,
    bytes: &[u8],
) -> Option<Heard>
    requires { AreWired mail.old.net (map R.seen.place nodes.old.items) }
    ensures nodes { (q : ℕ) (w : AWorld) (k : ℕ) → IsDue mail.old.net end dst bytes.now w k → AreNodes R.seen q w nodes.old.items → AreNodes R.seen q (step q (Deliver k) w) nodes.new.items }
    ensures heard { (q : ℕ) (w : AWorld) (k : ℕ) → (due : IsDue mail.old.net end dst bytes.now w k) → AreNodes R.seen q w nodes.old.items → result ≡ heard_of q w k due.item }
    ensures places { map R.seen.place nodes.new.items ≡ map R.seen.place nodes.old.items }
    ensures put { (q : ℕ) (w : AWorld) (k : ℕ) → IsDue mail.old.net end dst bytes.now w k → AreNodes R.seen q w nodes.old.items → ArePut mail.old mail.new (map (λ x. x.0) (sent q (Deliver k) w)) }
    ensures net { mail.new.net ≡ mail.old.net }
{
    let Some((node, iface)) = mail.wires().place_of(end) else {
        return None;
    };
    let at = node as usize;
    if at < nodes.len() {
        mail.set_from(node);
        let heard = take_in(&mut nodes[at], iface, dst, bytes, mail);
        Some(heard)
    } else {
        None
    }
}

/// A piece of a wait passes at each node in order, with a word of its own, and the nodes post what they send for it.
pub(crate) fn wait_all<R: Router>(nodes: &mut Vec<R>, mail: &mut Mail, words: &mut u64, ms: u32)
    requires short { All (λ p. ms ≤ 2 * p.quarter) (map R.seen.place nodes.old.items) }
    requires few { vec_len nodes.old ≤ 256 }
    ensures nodes { (q : ℕ) (w : AWorld) → AreReady R.seen q mail.old.net words.old nodes.old.items w → AreNodes R.seen q (step q (Piece ms) w) nodes.new.items }
    ensures put { (q : ℕ) (w : AWorld) → AreReady R.seen q mail.old.net words.old nodes.old.items w → ArePut mail.old mail.new (map (λ x. x.0) (sent q (Piece ms) w)) }
    ensures places { map R.seen.place nodes.new.items ≡ map R.seen.place nodes.old.items }
    ensures words { words.new ≡ state_after (length nodes.old.items) words.old }
    ensures net { mail.new.net ≡ mail.old.net }
{
    // The proof sees here that what is in flight has room.
    let _wires = mail.wires();
    for n in 0..nodes.len() {
        *words = next_state(*words);
        mail.set_from(n as u16);
        let word = word_of(*words);
        nodes[n].wait(ms, word, mail);
        // The proof sees here that what was posted is in range.
        let _full = mail.is_full();
    }
}

/// An application asks something of a node, which posts what it sends for it.
pub(crate) fn call_at<R: Router>(nodes: &mut Vec<R>, mail: &mut Mail, node: u16, call: &LocalCall)
    requires { IsFitCall (call_of call.now) }
    ensures nodes { (q : ℕ) (w : AWorld) → w.net ≡ mail.old.net → AreNodes R.seen q w nodes.old.items → AreNodes R.seen q (step q (At node (call_of call.now)) w) nodes.new.items }
    ensures put { (q : ℕ) (w : AWorld) → w.net ≡ mail.old.net → AreNodes R.seen q w nodes.old.items → ArePut mail.old mail.new (map (λ x. x.0) (sent q (At node (call_of call.now)) w)) }
    ensures places { map R.seen.place nodes.new.items ≡ map R.seen.place nodes.old.items }
    ensures net { mail.new.net ≡ mail.old.net }
{
    // The proof sees here that what is in flight has room.
    let _wires = mail.wires();
    let at = node as usize;
    if at >= nodes.len() {
        return;
    }
    mail.set_from(node);
    let _ = nodes[at].call(call, mail);
    // The proof sees here that what was posted is in range.
    let _full = mail.is_full();
}

/// A node forgets all but its local senders and wants.
pub(crate) fn clear_at<R: Router>(nodes: &mut Vec<R>, node: u16)
    ensures nodes { (q : ℕ) (w : AWorld) → AreNodes R.seen q w nodes.old.items → AreNodes R.seen q (step q (ClearAt node) w) nodes.new.items }
    ensures sent { (q : ℕ) (w : AWorld) → AreNodes R.seen q w nodes.old.items → sent q (ClearAt node) w ≡ [] }
    ensures places { map R.seen.place nodes.new.items ≡ map R.seen.place nodes.old.items }
{
    let at = node as usize;
    if at >= nodes.len() {
        return;
    }
    nodes[at].clear();
}

// The state of the words after the next one.
fn next_state(x: u64) -> u64
    ensures { result ≡ next_state x }
{
    x.wrapping_mul(6_364_136_223_846_793_005)
        .wrapping_add(1_442_695_040_888_963_407)
}

// The word of a state.
fn word_of(x: u64) -> u32
    ensures { result ≡ word_of_state x }
{
    (x >> 32) as u32
}
