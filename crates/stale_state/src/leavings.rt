//! What is left over at all nodes.
ghost use Rattle.std.specs.Prelude.{◌≡◌};
ghost use Rattle.stale_state.specs.AtNodes.{AreKept};

use crate::at_node::AtNode;
use crate::fact::{Left, LeftOver};
use crate::refused::LeftErr;
use rsvp_base::{Addr, Sender, Session, StyleKind, Unit};
use std::alloc::{AllocError, Global};
use style_rules::Target;
use tree_model::End;

/// What is left over at the nodes of a network, in the order in which it was added. The tables of a node say at once what is
/// asked of its facts.
#[derive(Drop)]
pub struct Leavings {
    pub(crate) alloc: Global,
    pub(crate) facts: Vec<LeftOver>,
    pub(crate) nodes: Vec<AtNode>,
    pub ghost kept: { AreKept facts.items nodes.items },
}

impl Leavings {
    ghost use Rattle.std.specs.Prelude.{◌↔◌, ◌≤◌, ◌<◌, ◌+◌, ◌∷◌, ◌++◌, [], List, IsTrue, IfErr, OnErr, OnOk};
    ghost use Rattle.rsvp_base.specs.Table.{has};
    ghost use Rattle.router_rules.specs.Facts.{resvs_of};
    ghost use Rattle.tree_model.specs.declared.hops.End.{End as EndOf};
    ghost use Rattle.network_model.specs.LeftFacts.{facts_at};
    ghost use Rattle.stale_state.specs.AtNodes.{ifaces_at_node};
    ghost use Rattle.stale_state.specs.Kept.{stale_of};
    ghost use Rattle.stale_state.specs.Listed.{IsOfEnds, facts_in, left_at, nodes_in, stale_in};
    ghost use Rattle.stale_state.specs.Standing.{CanStand, IsLeftOut, Stands};

    /// Nothing, and no nodes.
    pub fn new(alloc: Global) -> Leavings
        ensures none { stale_in result ≡ [] }
        ensures facts { facts_in result ≡ [] }
        ensures nodes { nodes_in result ≡ 0 }
        ensures ends { (ends : List EndOf) → IsOfEnds ends result }
    {
        Leavings {
            alloc,
            facts: Vec::new(alloc),
            nodes: Vec::new(alloc),
        }
    }

    /// Whether nothing is left over.
    pub fn is_empty(&self) -> bool
        ensures { IsTrue result ↔ (stale_in self.now ≡ []) }
    {
        self.facts.is_empty()
    }

    /// What is left over, in the order in which it was added.
    pub fn facts(&self) -> &[LeftOver]
        ensures { result.now ≡ facts_in self.now }
    {
        self.facts.as_slice()
    }

    /// Adds a node, before anything is left over.
    pub fn add_node(&mut self) -> Result<(), AllocError>
        requires { stale_in self.old ≡ [] }
        ensures ok { OnOk result (nodes_in self.new ≡ nodes_in self.old + 1) }
        ensures err { OnErr result (nodes_in self.new ≡ nodes_in self.old) }
        ensures none { stale_in self.new ≡ [] }
        ensures facts { facts_in self.new ≡ facts_in self.old }
        ensures ends { (ends : List EndOf) → IsOfEnds ends self.new }
    {
        self.nodes.push(AtNode::new())?;
        Ok(())
    }

    /// Whether a path of a session and sender is left over at a node.
    pub fn has_path(&self, node: u16, session: Session, sender: Sender) -> bool
        requires { node < nodes_in self.now }
        ensures { result ≡ has (facts_at (stale_in self.now) node).paths (session, sender) }
    {
        self.nodes[node as usize].has_path(session, sender)
    }

    /// Whether a reservation of a style, session, next hop and unit is left over at a node.
    pub fn has_resv(
        &self,
        node: u16,
        style: StyleKind,
        session: Session,
        iface: u8,
        next: Addr,
        unit: Unit,
    ) -> bool
        requires { node < nodes_in self.now }
        ensures { result ≡ has (resvs_of style (facts_at (stale_in self.now) node)) (session, ((iface, next), unit)) }
    {
        self.nodes[node as usize].has_resv(style, session, iface, next, unit)
    }

    /// Whether a blockade of a session toward a target is left over at a node.
    pub fn has_wall(&self, node: u16, session: Session, target: Target) -> bool
        requires { node < nodes_in self.now }
        ensures { result ≡ has (facts_at (stale_in self.now) node).walls (session, target) }
    {
        self.nodes[node as usize].has_wall(session, target)
    }

    /// A fact is left over at a node, with this much left, in milliseconds, in the place of one of its key. The ends are those
    /// of the network.
    ///
    /// `Full`: the tables of the node would not be within their limits. `Over`: this is not so, and merged with the others of
    /// its interface the reservation passes its capacity or its MTU. Nothing is added after any error.
    pub fn add(&mut self, ends: &[End], node: u16, fact: Left, left: u32) -> Result<(), LeftErr>
        requires there { node < nodes_in self.old }
        requires some { 1 ≤ left }
        requires fit { CanStand (ifaces_at_node ends.now node) fact }
        requires ends { IsOfEnds ends.now self.old }
        ensures ok { OnOk result (stale_in self.new ≡ stale_in self.old ++ (node, stale_of fact left) ∷ []) }
        ensures facts { OnOk result (facts_in self.new ≡ facts_in self.old ++ left_at node fact left ∷ []) }
        ensures stands { OnOk result (Stands (ifaces_at_node ends.now node) (stale_of fact left) (facts_at (stale_in self.old) node) (facts_at (stale_in self.new) node)) }
        ensures refused { IfErr result (IsLeftOut (ifaces_at_node ends.now node) (stale_of fact left) (facts_at (stale_in self.old) node)) }
        ensures err { OnErr result (stale_in self.new ≡ stale_in self.old) }
        ensures err_facts { OnErr result (facts_in self.new ≡ facts_in self.old) }
        ensures nodes { nodes_in self.new ≡ nodes_in self.old }
        ensures ends { IsOfEnds ends.now self.new }
    {
        self.facts.reserve(1)?;
        let kept = copy_of(&fact);
        self.nodes[node as usize].add(self.alloc, ends, node, fact, left)?;
        let _ = self.facts.push(LeftOver {
            node,
            fact: kept,
            left,
        });
        Ok(())
    }
}

// An equal fact.
fn copy_of(fact: &Left) -> Left
    ensures { result ≡ fact.now }
{
    match fact {
        Left::Path(fact) => Left::Path(fact.copy()),
        Left::Resv(style, fact) => Left::Resv(*style, fact.copy()),
        Left::Wall(session, target, wall) => Left::Wall(*session, *target, *wall),
    }
}
