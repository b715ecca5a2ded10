//! Paths, reservations and blockades that are left over.
ghost use Rattle.std.specs.Prelude.{◌≡◌, ◌≤◌, ◌<◌, ℕ, None, Some, MatchResult, OnErr, length};
ghost use Rattle.style_rules.specs.Parts.{IsOfStyle};
ghost use Rattle.router_rules.specs.Rule.{facts_with, refusal_of_stale};
ghost use Rattle.router_state.specs.State.{facts_at};
ghost use Rattle.router_arrivals.specs.LeftOver.{resv_left, wall_left};
ghost use Rattle.router_arrivals.specs.Coming.{stale_path};

use crate::node::Node;
use path_state::PathFact;
use resv_sends::keep_said;
use resv_state::ResvFact;
use router_arrivals::{keep_path, leave_resv, leave_wall};
use router_rules::StaleErr;
use rsvp_base::{Sender, Session, StyleKind};
use style_rules::{Target, Wall};

impl Node {
    /// A path is left over at the node, with this much left, in milliseconds, in place of the one that stands there. Nothing is
    /// sent. `Full` exactly where it would be the first of a 33rd session or the 17th of its session; nothing changes then.
    pub fn stale_path(&mut self, fact: PathFact, left: u32) -> Result<(), StaleErr>
        requires { 1 ≤ left }
        ensures refused { (c : ℕ)
            → MatchResult result (λ _. refusal_of_stale self.old.place (stale_path c fact left) (facts_at c self.old) ≡ None)
            (λ e. refusal_of_stale self.old.place (stale_path c fact left) (facts_at c self.old) ≡ Some e) }
        ensures facts { (c : ℕ) → facts_at c self.new ≡ facts_with self.old.place c (stale_path c fact left) (facts_at c self.old) }
        ensures place { self.new.place ≡ self.old.place }
        ensures kept { OnErr result (self.new ≡ self.old) }
    {
        let (session, sender) = (fact.session, fact.sender);
        let near = self.tables.paths.hops(session);
        if !keep_path(&mut self.tables, fact, left) {
            return Err(StaleErr::Full);
        }
        keep_said(&self.tables, &mut self.said, session, sender, &near);
        Ok(())
    }

    /// A reservation is left over at the node, with this much left, in milliseconds, in place of the one that stands under its
    /// key. It is of the style, and its interface is one of the node's. Nothing is sent. `Full` exactly where the table of its
    /// style would not be within its limits, else `Over` exactly where the book of its interface refuses its entry; nothing
    /// changes then.
    pub fn stale_resv(
        &mut self,
        style: StyleKind,
        fact: ResvFact,
        left: u32,
    ) -> Result<(), StaleErr>
        requires exists { fact.iface < length self.old.place.ifaces }
        requires style { IsOfStyle style fact.part }
        requires some { 1 ≤ left }
        ensures refused { (c : ℕ)
            → MatchResult result (λ _. refusal_of_stale self.old.place (resv_left style c fact left) (facts_at c self.old) ≡ None)
            (λ e. refusal_of_stale self.old.place (resv_left style c fact left) (facts_at c self.old) ≡ Some e) }
        ensures facts { (c : ℕ) → facts_at c self.new ≡ facts_with self.old.place c (resv_left style c fact left) (facts_at c self.old) }
        ensures place { self.new.place ≡ self.old.place }
        ensures kept { OnErr result (self.new ≡ self.old) }
    {
        // No sender changes, so any will do.
        let session = fact.session;
        let near = self.tables.paths.hops(session);
        leave_resv(&mut self.tables, style, fact, left)?;
        keep_said(
            &self.tables,
            &mut self.said,
            session,
            Sender::default(),
            &near,
        );
        Ok(())
    }

    /// A blockade is left over at the node, with this much left, in milliseconds, in place of the one that stands there. Nothing
    /// is sent. `Full` exactly where this would be a 513th; nothing changes then.
    pub fn stale_blockade(
        &mut self,
        session: Session,
        target: Target,
        wall: Wall,
        left: u32,
    ) -> Result<(), StaleErr>
        requires { 1 ≤ left }
        ensures refused { (c : ℕ)
            → MatchResult result (λ _. refusal_of_stale self.old.place (wall_left (session, target) c wall left) (facts_at c self.old) ≡ None)
            (λ e. refusal_of_stale self.old.place (wall_left (session, target) c wall left) (facts_at c self.old) ≡ Some e) }
        ensures facts { (c : ℕ) → facts_at c self.new ≡ facts_with self.old.place c (wall_left (session, target) c wall left) (facts_at c self.old) }
        ensures place { self.new.place ≡ self.old.place }
        ensures kept { OnErr result (self.new ≡ self.old) }
    {
        // No sender changes, so any will do.
        let near = self.tables.paths.hops(session);
        leave_wall(&mut self.tables, session, target, wall, left)?;
        keep_said(
            &self.tables,
            &mut self.said,
            session,
            Sender::default(),
            &near,
        );
        Ok(())
    }
}
