//! A fact comes to be left over at a node.
ghost use Rattle.std.specs.Prelude.{◌≡◌, ◌≢◌, ◌≤◌, ◌<◌, [], List, Err, IfErr, IfSome, OnErr, OnOk, length, false, true};
ghost use Rattle.rsvp_base.specs.declared.iface.Iface.{Iface as IfaceOf};
ghost use Rattle.style_rules.specs.Parts.{IsOfStyle};
ghost use Rattle.stale_state.specs.AtNodes.{ifaces_at_node};
ghost use Rattle.stale_state.specs.Kept.{facts_of, ifaces_of, stale_of};
ghost use Rattle.stale_state.specs.Standing.{IsLeftOut, Stands, answer_of, excess_of};
ghost use Rattle.stale_state.specs.declared.refused.LeftErr.TheVariants.{Full, NoMemory};
ghost use Rattle.rsvp_base.specs.Table.{put_in, size};
ghost use Rattle.rsvp_base.specs.Orders.{senders};
ghost use Rattle.rsvp_base.specs.SessionLimits.{has_room_at};

use crate::at_node::AtNode;
use crate::fact::Left;
use crate::ifaces::ifaces_of;
use crate::refused::LeftErr;
use crate::resvs::ResvsLeft;
use admission_book::Refused;
use blockade_state::Blockades;
use network_model::Excess;
use path_state::{PathFact, PathTable};
use resv_admission::Placed;
use resv_state::ResvFact;
use rsvp_base::{Iface, Session, StyleKind};
use std::alloc::Global;
use style_rules::{Target, Wall};
use tree_model::End;

impl AtNode {
    /// A path is left over.
    pub(crate) fn add_path(
        &mut self,
        alloc: Global,
        fact: PathFact,
        left: u32,
    ) -> Result<(), LeftErr>
        requires { 1 ≤ left }
        ensures ok { (is : List IfaceOf) → OnOk result (Stands is (stale_of (Left.Path fact) left) (facts_of self.old) (facts_of self.new)) }
        ensures refused { (is : List IfaceOf) → IfErr result (IsLeftOut is (stale_of (Left.Path fact) left) (facts_of self.old)) }
        ensures err { OnErr result (facts_of self.new ≡ facts_of self.old) }
        ensures ifaces { ifaces_of self.new ≡ ifaces_of self.old }
    {
        match &mut self.paths {
            Some(paths) => learn(paths, fact, left),
            None => {
                let mut paths = PathTable::open(alloc)?;
                learn(&mut paths, fact, left)?;
                self.paths = Some(paths);
                Ok(())
            }
        }
    }

    /// A reservation is left over.
    pub(crate) fn add_resv(
        &mut self,
        alloc: Global,
        ends: &[End],
        node: u16,
        style: StyleKind,
        fact: ResvFact,
        left: u32,
    ) -> Result<(), LeftErr>
        requires some { 1 ≤ left }
        requires style { IsOfStyle style fact.part }
        requires exists { fact.iface < length (ifaces_at_node ends.now node) }
        requires booked { IfSome (ifaces_of self.old) (λ is. is ≡ ifaces_at_node ends.now node) }
        ensures ok { OnOk result (Stands (ifaces_at_node ends.now node) (stale_of (Left.Resv style fact) left) (facts_of self.old) (facts_of self.new)) }
        ensures refused { IfErr result (IsLeftOut (ifaces_at_node ends.now node) (stale_of (Left.Resv style fact) left) (facts_of self.old)) }
        ensures booked { IfSome (ifaces_of self.new) (λ is. is ≡ ifaces_at_node ends.now node) }
        ensures err { OnErr result (facts_of self.new ≡ facts_of self.old) }
        ensures err_ifaces { OnErr result (ifaces_of self.new ≡ ifaces_of self.old) }
    {
        match &mut self.resvs {
            Some(resvs) => {
                let on = resvs.iface(fact.iface);
                answer(&on, resvs.stand(style, fact, left))
            }
            None => {
                let ifaces = ifaces_of(alloc, ends, node)?;
                let mut resvs = ResvsLeft::open(alloc, &ifaces)?;
                let on = resvs.iface(fact.iface);
                answer(&on, resvs.stand(style, fact, left))?;
                self.resvs = Some(resvs);
                Ok(())
            }
        }
    }

    /// A blockade is left over.
    pub(crate) fn add_wall(
        &mut self,
        alloc: Global,
        session: Session,
        target: Target,
        wall: Wall,
        left: u32,
    ) -> Result<(), LeftErr>
        requires { 1 ≤ left }
        ensures ok { (is : List IfaceOf) → OnOk result (Stands is (stale_of (Left.Wall session target wall) left) (facts_of self.old) (facts_of self.new)) }
        ensures refused { (is : List IfaceOf) → IfErr result (IsLeftOut is (stale_of (Left.Wall session target wall) left) (facts_of self.old)) }
        ensures err { OnErr result (facts_of self.new ≡ facts_of self.old) }
        ensures ifaces { ifaces_of self.new ≡ ifaces_of self.old }
    {
        match &mut self.walls {
            Some(walls) => set(walls, session, target, wall, left),
            None => {
                let mut walls = Blockades::open(alloc)?;
                set(&mut walls, session, target, wall, left)?;
                self.walls = Some(walls);
                Ok(())
            }
        }
    }
}

// Keeps a path in a table, where there is room for it.
fn learn(paths: &mut PathTable, fact: PathFact, left: u32) -> Result<(), LeftErr>
    requires some { 1 ≤ left }
    requires pulled { paths.old.dead.rows ≡ [] }
    ensures ok { OnOk result (paths.new ≡ record paths.old { facts = put_in paths.old.facts (fact.session, fact.sender) (fact, left) }) }
    ensures room { OnOk result (has_room_at senders (put_in paths.old.facts (fact.session, fact.sender) (fact, left)) fact.session ≡ true) }
    ensures full { OnErr result (has_room_at senders (put_in paths.old.facts (fact.session, fact.sender) (fact, left)) fact.session ≡ false) }
    ensures why { IfErr result (λ e. e ≡ Full) }
    ensures err { OnErr result (paths.new ≡ paths.old) }
{
    match paths.learn(fact, left) {
        Ok(()) => Ok(()),
        Err(_) => Err(LeftErr::Full),
    }
}

// Keeps a blockade in a table, where there is room for it.
fn set(
    walls: &mut Blockades,
    session: Session,
    target: Target,
    wall: Wall,
    left: u32,
) -> Result<(), LeftErr>
    requires { 1 ≤ left }
    ensures ok { OnOk result (walls.new ≡ put_in walls.old (session, target) (wall, left)) }
    ensures room { OnOk result (size (put_in walls.old (session, target) (wall, left)) ≤ 512) }
    ensures full { OnErr result (512 < size (put_in walls.old (session, target) (wall, left))) }
    ensures why { IfErr result (λ e. e ≡ Full) }
    ensures err { OnErr result (walls.new ≡ walls.old) }
{
    match walls.set(session, target, wall, left) {
        Ok(()) => Ok(()),
        Err(_) => Err(LeftErr::Full),
    }
}

// What became of a reservation on this interface, as the answer of what is left over.
fn answer(on: &Iface, placed: Placed) -> Result<(), LeftErr>
    ensures { result ≡ answer_of on.now placed }
{
    match placed {
        Placed::Taken => Ok(()),
        Placed::LeftOut => Err(LeftErr::Full),
        Placed::Refused(why) => Err(LeftErr::Over(excess_of(on, why))),
    }
}

// What the book of an interface refuses, with the sum of the rates.
fn excess_of(on: &Iface, why: Refused) -> Excess
    ensures { result ≡ excess_of on.now why }
{
    match why {
        Refused::Mtu { most, mtu } => Excess::Packet { most, mtu },
        Refused::Rate { want, free } => {
            let others = on.capacity.saturating_sub(free);
            Excess::Rate {
                sum: u128::from(others) + u128::from(want),
                capacity: on.capacity,
            }
        }
    }
}
