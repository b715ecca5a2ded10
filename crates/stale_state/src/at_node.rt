//! What is left over at one node.
ghost use Rattle.std.specs.Prelude.{◌≡◌, ◌≤◌, [], None, Some, IfErr, IfSome, OnErr, OnOk};
ghost use Rattle.path_state.specs.Paths.{PathMap};
ghost use Rattle.router_rules.specs.Bounds.{AreWithinLimits};
ghost use Rattle.stale_state.specs.Reserved.{resvs_in};
ghost use Rattle.stale_state.specs.Tables.{learnt, paths_of, walls_of};

use crate::fact::Left;
use crate::refused::LeftErr;
use crate::resvs::ResvsLeft;
use blockade_state::Blockades;
use path_state::PathTable;
use rsvp_base::{Addr, Sender, Session, StyleKind, Unit};
use std::alloc::Global;
use style_rules::Target;
use tree_model::End;

// The tables of a node, each there from its first fact on.
#[derive(Drop)]
pub(crate) struct AtNode {
    pub(crate) paths: Option<PathTable>,
    pub(crate) resvs: Option<ResvsLeft>,
    pub(crate) walls: Option<Blockades>,
    pub ghost no_path_waits: { (t : PathMap) → paths ≡ Some t → t.dead.rows ≡ [] },
    pub ghost within: { AreWithinLimits (learnt (paths_of paths) (resvs_in resvs) (walls_of walls)) },
}

impl AtNode {
    ghost use Rattle.rsvp_base.specs.Table.{has};
    ghost use Rattle.router_rules.specs.Facts.{no_facts, resvs_of};
    ghost use Rattle.stale_state.specs.AtNodes.{ifaces_at_node};
    ghost use Rattle.stale_state.specs.Kept.{facts_of, ifaces_of, stale_of};
    ghost use Rattle.stale_state.specs.Standing.{CanStand, IsLeftOut, Stands};

    /// A node at which nothing is left over.
    pub(crate) fn new() -> AtNode
        ensures facts { facts_of result ≡ no_facts }
        ensures ifaces { ifaces_of result ≡ None }
    {
        AtNode {
            paths: None,
            resvs: None,
            walls: None,
        }
    }

    /// Whether a path of a session and sender is left over.
    pub(crate) fn has_path(&self, session: Session, sender: Sender) -> bool
        ensures { result ≡ has (facts_of self.now).paths (session, sender) }
    {
        match &self.paths {
            Some(paths) => paths.find(session, sender).is_some(),
            None => false,
        }
    }

    /// Whether a reservation of a style, session, next hop and unit is left over.
    pub(crate) fn has_resv(
        &self,
        style: StyleKind,
        session: Session,
        iface: u8,
        next: Addr,
        unit: Unit,
    ) -> bool
        ensures { result ≡ has (resvs_of style (facts_of self.now)) (session, ((iface, next), unit)) }
    {
        match &self.resvs {
            Some(resvs) => resvs.has(style, session, iface, next, unit),
            None => false,
        }
    }

    /// Whether a blockade of a session toward a target is left over.
    pub(crate) fn has_wall(&self, session: Session, target: Target) -> bool
        ensures { result ≡ has (facts_of self.now).walls (session, target) }
    {
        match &self.walls {
            Some(walls) => walls.of(session, target).is_some(),
            None => false,
        }
    }

    /// A fact is left over at the node of these ends, with this much left, in milliseconds, in the place of one of its key.
    ///
    /// `Full`: the tables would not be within their limits. `Over`: this is not so, and merged with the others of its
    /// interface the reservation passes its capacity or its MTU. Nothing changes after any error.
    pub(crate) fn add(
        &mut self,
        alloc: Global,
        ends: &[End],
        node: u16,
        fact: Left,
        left: u32,
    ) -> Result<(), LeftErr>
        requires some { 1 ≤ left }
        requires fit { CanStand (ifaces_at_node ends.now node) fact }
        requires booked { IfSome (ifaces_of self.old) (λ is. is ≡ ifaces_at_node ends.now node) }
        ensures ok { OnOk result (Stands (ifaces_at_node ends.now node) (stale_of fact left) (facts_of self.old) (facts_of self.new)) }
        ensures refused { IfErr result (IsLeftOut (ifaces_at_node ends.now node) (stale_of fact left) (facts_of self.old)) }
        ensures booked { IfSome (ifaces_of self.new) (λ is. is ≡ ifaces_at_node ends.now node) }
        ensures err_facts { OnErr result (facts_of self.new ≡ facts_of self.old) }
        ensures err_ifaces { OnErr result (ifaces_of self.new ≡ ifaces_of self.old) }
    {
        match fact {
            Left::Path(fact) => self.add_path(alloc, fact, left),
            Left::Resv(style, fact) => self.add_resv(alloc, ends, node, style, fact, left),
            Left::Wall(session, target, wall) => {
                self.add_wall(alloc, session, target, wall, left)
            }
        }
    }
}
