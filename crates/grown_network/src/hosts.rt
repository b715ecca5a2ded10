//! What the hosts of a grown network ask of it.
ghost use Rattle.std.specs.Prelude.{◌≡◌, ◌<◌, ◌≤◌, ◌++◌, ◌*◌, ◌+◌, IfOk, OnOk};
ghost use Rattle.grown_network.specs.Hosts.{flow_of, is_named, local_sender, named, names_of, rate_of, sender_node, sender_of, senders, senders_of, session_of, wanted_by, wants};

use crate::nodes::{NODES, home};
use crate::words::Words;
use rsvp_base::{Addr, Flow, NoMemory, Peak, Rate, Sender, Senders, Session, StyleKind};
use std::alloc::Global;
use tree_model::LocalSender;

/// A reservation that is wanted at a node, of the session of its style.
#[derive(Drop)]
pub struct Wanted {
    /// The number of the node.
    pub node: u16,
    pub style: StyleKind,
    /// Whom it names; nobody where it is a wildcard one, which is for all of the session.
    pub senders: Senders,
    pub flow: Flow,
}

/// The session of a style: 239.3.0.1/17/5004 (WF), 239.3.0.2/17/5004 (FF) or 239.3.0.3/17/5004 (SE).
pub fn session_of(style: StyleKind) -> Session
    ensures { result ≡ session_of style }
{
    let number = match style {
        StyleKind::Wild => 1,
        StyleKind::Fixed => 2,
        StyleKind::Shared => 3,
    };
    Session {
        group: Addr(0xef03_0000 + number),
        proto: 17,
        port: 5004,
    }
}

/// The flow rate/rate/inf/64/1500, of a rate of at most 16,000 bytes per second.
pub fn flow_of(rate: u64) -> Flow
    requires { (1 ≤ rate) × (rate ≤ 16000) }
    ensures { result ≡ flow_of rate }
{
    let rate = Rate::of(rate).unwrap();
    Flow::new(rate, rate, Peak::Infinite, 64, 1500).unwrap()
}

// The node of a sender of the session with this word.
fn sender_node(word: u32, i: u8) -> u16
    requires { i < 4 }
    ensures value { result ≡ sender_node word i }
    ensures within { result < 64 }
{
    ((u64::from(word) + 16 * u64::from(i)) % 64) as u16
}

// A sender of the session with this word.
fn sender_of(word: u32, i: u8) -> Sender
    requires { i < 4 }
    ensures { result ≡ sender_of word i }
{
    Sender {
        addr: home(sender_node(word, i)),
        port: 5004,
    }
}

// Adds the senders of the session of a style, with this word.
fn add_senders(all: &mut Vec<LocalSender>, style: StyleKind, word: u32) -> Result<(), NoMemory>
    ensures { OnOk result (all.new.items ≡ all.old.items ++ senders_of style word) }
{
    for i in 0..4u8 {
        all.push(LocalSender {
            node: sender_node(word, i),
            session: session_of(style),
            sender: sender_of(word, i),
        })?;
    }
    Ok(())
}

/// The senders of a seed, by session. `NoMemory`: there was no room for them.
pub fn senders(alloc: Global, seed: u64) -> Result<Vec<LocalSender>, NoMemory>
    ensures { IfOk result (λ all. all.items ≡ senders seed) }
{
    let mut words = Words::new(seed);
    let mut all = Vec::new(alloc);
    add_senders(&mut all, StyleKind::Wild, words.next())?;
    add_senders(&mut all, StyleKind::Fixed, words.next())?;
    add_senders(&mut all, StyleKind::Shared, words.next())?;
    Ok(all)
}

// Whether a digit names sender i.
fn is_named(digit: u32, i: u8) -> bool
    requires { (digit < 16) × (i < 4) }
    ensures { result ≡ is_named digit i }
{
    digit == 0 || (digit >> i) % 2 == 1
}

// The senders that a digit names, of the session with this word.
fn named(word: u32, digit: u32) -> Senders
    requires { digit < 16 }
    ensures { result ≡ named word digit }
{
    let mut names = Senders::new();
    for i in 0..4u8 {
        if is_named(digit, i) {
            // There is room: they are four at most.
            let _ = names.insert(sender_of(word, i));
        }
    }
    names
}

// Whom a want of this style names.
fn names_of(style: StyleKind, word: u32, digit: u32) -> Senders
    requires { digit < 16 }
    ensures { result ≡ names_of style word digit }
{
    match style {
        StyleKind::Wild => Senders::new(),
        StyleKind::Fixed => named(word, digit),
        StyleKind::Shared => named(word, digit),
    }
}

// The rate that a word wants.
fn rate_of(word: u32) -> u64
    ensures value { result ≡ rate_of word }
    ensures some { 1 ≤ result }
    ensures few { result ≤ 16000 }
{
    1000 * (1 + u64::from(word) / 256 % 16)
}

// Adds what a word makes a node want of the session of this style, with that word of its own, if anything.
fn add_wanted(
    all: &mut Vec<Wanted>,
    style: StyleKind,
    session: u32,
    node: u16,
    word: u32,
) -> Result<(), NoMemory>
    ensures { OnOk result (all.new.items ≡ all.old.items ++ wanted_by style session node word) }
{
    if word % 4 == 0 {
        return Ok(());
    }
    let wanted = Wanted {
        node,
        style,
        senders: names_of(style, session, word / 16 % 16),
        flow: flow_of(rate_of(word)),
    };
    if all.push(wanted).is_err() {
        return Err(NoMemory);
    }
    Ok(())
}

/// What is wanted by a seed, by node and session. `NoMemory`: there was no room for it.
pub fn wants(alloc: Global, seed: u64) -> Result<Vec<Wanted>, NoMemory>
    ensures { IfOk result (λ all. all.items ≡ wants seed) }
{
    let mut words = Words::new(seed);
    let wild = words.next();
    let fixed = words.next();
    let shared = words.next();
    let mut all = Vec::new(alloc);
    for node in 0..NODES {
        add_wanted(&mut all, StyleKind::Wild, wild, node, words.next())?;
        add_wanted(&mut all, StyleKind::Fixed, fixed, node, words.next())?;
        add_wanted(&mut all, StyleKind::Shared, shared, node, words.next())?;
    }
    Ok(all)
}
