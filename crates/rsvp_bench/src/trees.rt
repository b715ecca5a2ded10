//! The work on trees that is timed, on the largest network: a chain of 256 nodes with 8,192 hops of trees, each tree from
//! its root to both ends of the chain.
ghost use Rattle.std.specs.Prelude.{◌≡◌, ◌*◌, ◌<◌};

use network_demand::{Demand, LocalSender, LocalWant, Locals, can_ask, demand};
use rsvp_base::{Addr, Flow, Iface, Part, Peak, Rate, Sender, Senders, Session, StyleKind};
use std::alloc::Global;
use tree_routing::{End, Routing, Topology};

/// How far the work goes.
#[derive(Clone, Copy)]
pub enum Until {
    /// All hops are added, with the loop check at each.
    Grown,
    /// And the topology is closed.
    Closed,
    /// And it is asked where each tree comes into each node and leaves it.
    Asked,
    /// Or what each end owes is worked out.
    Owed,
}

/// Whose group the trees are of, and how far the work goes.
#[derive(Clone, Copy)]
pub struct Forest {
    /// Each tree has a group of its own; or all have one group, in which 11 of the sources send to each session.
    pub is_apart: bool,
    pub until: Until,
}

/// How many hops were added, and a sum over what came of it.
#[derive(Clone, Copy, Default)]
pub struct Grown {
    pub hops: u64,
    pub sum: u64,
}

const NODES: u16 = 256;

const TREES: u16 = 33;

const GROUP: u32 = 0xef01_0100;

/// Does the work so many times. `None`: memory ran out.
pub fn grow_times(alloc: Global, forest: Forest, times: u32) -> Option<Grown> {
    let mut all = Grown::default();
    for _ in 0..times {
        let grown = grow(alloc, forest)?;
        all = Grown {
            hops: all.hops.wrapping_add(grown.hops),
            sum: all.sum.wrapping_add(grown.sum),
        };
    }
    Some(all)
}

// Does the work once.
fn grow(alloc: Global, forest: Forest) -> Option<Grown> {
    let mut net = chain(alloc)?;
    let mut hops = 0u64;
    for tree in 0..TREES {
        hops = hops.wrapping_add(add_tree(&mut net, forest, tree)?);
    }
    if forest.until == Until::Grown {
        return Some(Grown { hops, sum: 0 });
    }
    let routing = net.close().ok()?;
    let sum = u64::from(routing.longest());
    if forest.until == Until::Closed {
        return Some(Grown { hops, sum });
    }
    if forest.until == Until::Asked {
        let ways = ways(&routing, forest);
        return Some(Grown {
            hops,
            sum: sum.wrapping_add(ways),
        });
    }
    let locals = locals(alloc, forest)?;
    if !can_ask(&routing, &locals) {
        return None;
    }
    let owed = demand(alloc, &routing, &locals).ok()?;
    Some(Grown {
        hops,
        sum: sum.wrapping_add(weight(&owed)),
    })
}

// The nodes in a row: link k is of the ends 2k, of node k, and 2k + 1, of node k + 1.
fn chain(alloc: Global) -> Option<Topology> {
    let mut net = Topology::new(alloc).ok()?;
    for _ in 0..NODES {
        if !net.has_room_for_node() {
            return None;
        }
        net.add_node().ok()?;
    }
    for link in 0..NODES - 1 {
        add_end(&mut net, link, 2 * link)?;
        add_end(&mut net, link + 1, 2 * link + 1)?;
        if !net.takes_link(2 * link, 2 * link + 1) {
            return None;
        }
        net.add_link(2 * link, 2 * link + 1).ok()?;
    }
    Some(net)
}

// Adds the end of this number.
fn add_end(net: &mut Topology, node: u16, number: u16) -> Option<()> {
    let end = End {
        node,
        iface: Iface {
            addr: addr(number),
            capacity: 1_000_000,
            mtu: 1500,
            latency: 0,
        },
    };
    if !net.takes_end(&end) {
        return None;
    }
    net.add_end(end).ok()?;
    Some(())
}

// The address of the end of this number.
fn addr(number: u16) -> Addr {
    Addr(0x0a00_0000 + u32::from(number))
}

// The node that is the root of a tree.
fn root(tree: u16) -> u16
    requires { tree < 33 }
    ensures { result ≡ tree * 7 }
{
    tree * 7
}

// Adds the hops of a tree, away from its root; how many were added.
fn add_tree(net: &mut Topology, forest: Forest, tree: u16) -> Option<u64>
    requires { tree < 33 }
{
    let group = group(forest, tree);
    let root = root(tree);
    let source = addr(2 * root);
    let mut hops = 0u64;
    for link in root..NODES - 1 {
        hops = hops.wrapping_add(add_hop(net, group, source, 2 * link, 2 * link + 1)?);
    }
    for back in 0..root {
        let link = root - 1 - back;
        hops = hops.wrapping_add(add_hop(net, group, source, 2 * link + 1, 2 * link)?);
    }
    Some(hops)
}

// Adds a hop, if there is room for another; how many were added.
fn add_hop(net: &mut Topology, group: Addr, source: Addr, from: u16, to: u16) -> Option<u64> {
    if !net.has_room_for_hop() {
        return Some(0);
    }
    net.add_hop(group, source, from, to).ok()?;
    Some(1)
}

// The group of a tree.
fn group(forest: Forest, tree: u16) -> Addr {
    if forest.is_apart {
        return Addr(GROUP + u32::from(tree));
    }
    Addr(GROUP)
}

// The session to which the source of a tree sends.
fn session(forest: Forest, tree: u16) -> Session {
    Session {
        group: group(forest, tree),
        proto: 17,
        port: if forest.is_apart {
            5004
        } else {
            5004 + tree / 11
        },
    }
}

// A sum over the ways of each tree at each node.
fn ways(routing: &Routing, forest: Forest) -> u64 {
    let mut sum = 0u64;
    for tree in 0..TREES {
        let source = addr(2 * root(tree));
        for node in 0..NODES {
            sum = sum.wrapping_add(ways_at(routing, node, group(forest, tree), source));
        }
    }
    sum
}

// The way into a node, counted from 1, and the ways out of it.
fn ways_at(routing: &Routing, node: u16, group: Addr, source: Addr) -> u64 {
    let inward = match routing.inward(node, group, source) {
        Some(iface) => 1 + u64::from(iface),
        None => 0,
    };
    inward + u64::from(routing.outward(node, group, source))
}

// Each source sends to its session, and each node wants something of each session (32 at most), in one of the three styles.
fn locals(alloc: Global, forest: Forest) -> Option<Locals> {
    let mut senders = Vec::new(alloc);
    let mut wants = Vec::new(alloc);
    for tree in 0..TREES {
        senders
            .push(LocalSender {
                node: root(tree),
                session: session(forest, tree),
                sender: sender(tree),
            })
            .ok()?;
        if is_wanted(forest, tree) {
            for node in 0..NODES {
                wants.push(want(forest, tree, node)?).ok()?;
            }
        }
    }
    Some(Locals { senders, wants })
}

// Whether something is wanted of the session of a tree: once of each session, and of 32 at most.
fn is_wanted(forest: Forest, tree: u16) -> bool {
    if forest.is_apart {
        return tree < 32;
    }
    tree % 11 == 0
}

// The sender of a tree.
fn sender(tree: u16) -> Sender
    requires { tree < 33 }
{
    Sender {
        addr: addr(2 * root(tree)),
        port: 5004,
    }
}

// What a node wants of the session of a tree: of all its senders, or of that of the tree alone.
fn want(forest: Forest, tree: u16, node: u16) -> Option<LocalWant>
    requires { tree < 33 }
{
    let style = style(node);
    let senders = match style {
        StyleKind::Wild => Senders::new(),
        StyleKind::Fixed => Senders::of(&[sender(tree)]).ok()?,
        StyleKind::Shared => Senders::of(&[sender(tree)]).ok()?,
    };
    let rate = 1000 + u64::from(node);
    let flow = Flow::new(Rate::of(rate)?, Rate::of(2000)?, Peak::Infinite, 64, 1500)?;
    Some(LocalWant {
        node,
        session: session(forest, tree),
        style,
        part: Part { senders, flow },
    })
}

// The style in which a node wants something.
fn style(node: u16) -> StyleKind {
    match node % 3 {
        0 => StyleKind::Wild,
        1 => StyleKind::Fixed,
        _ => StyleKind::Shared,
    }
}

// A sum over what all ends owe: the names and the rate of each entry.
fn weight(owed: &Demand) -> u64 {
    let mut sum = 0u64;
    for book in &owed.ends {
        for (_, part) in book.as_slice() {
            sum = sum
                .wrapping_add(part.senders.len() as u64)
                .wrapping_add(part.flow.r.value());
        }
    }
    sum
}
