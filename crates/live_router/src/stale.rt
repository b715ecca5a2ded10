//! Paths, reservations and blockades that are left over.
ghost use Rattle.std.specs.Prelude.{◌≡◌, ℕ, None, Some, MatchResult, OnErr};
ghost use Rattle.router_rules.specs.Rule.{facts_with, refusal_of_stale};
ghost use Rattle.router_rules.specs.Steps.{IsFitStale};
ghost use Rattle.router_state.specs.State.{facts_at};
ghost use Rattle.router_core.specs.LeftOver.{resv_left, wall_left};
ghost use Rattle.router_core.specs.Coming.{stale_path};

use crate::live_router::LiveRouter;
use path_state::PathFact;
use resv_state::ResvFact;
use router_rules::StaleErr;
use rsvp_base::{Session, StyleKind};
use style_rules::{Target, Wall};

impl LiveRouter {
    /// A path is left over at the router, with this much left, in milliseconds, in place of the one that stands there. It lives
    /// no longer than one that was just refreshed, and has the shape of one. Nothing is sent. `Full` exactly where it would be
    /// the first of a 33rd session or the 17th of its session; nothing changes then.
    pub fn stale_path(&mut self, fact: PathFact, left: u32) -> Result<(), StaleErr>
        requires { IsFitStale self.old.place 0 (stale_path 0 fact left) }
        ensures refused { (c : ℕ)
            → MatchResult result (λ _. refusal_of_stale self.old.place (stale_path c fact left) (facts_at c self.old) ≡ None)
            (λ e. refusal_of_stale self.old.place (stale_path c fact left) (facts_at c self.old) ≡ Some e) }
        ensures facts { (c : ℕ) → facts_at c self.new ≡ facts_with self.old.place c (stale_path c fact left) (facts_at c self.old) }
        ensures place { self.new.place ≡ self.old.place }
        ensures kept { OnErr result (self.new ≡ self.old) }
    {
        self.node.stale_path(fact, left)
    }

    /// A reservation is left over at the router, with this much left, in milliseconds, in place of the one that stands under its
    /// key. It lives no longer than one that was just refreshed, and has the shape of one. Nothing is sent. `Full` exactly where
    /// the table of its style would not be within its limits, else `Over` exactly where the book of its interface refuses its
    /// entry; nothing changes then.
    pub fn stale_resv(
        &mut self,
        style: StyleKind,
        fact: ResvFact,
        left: u32,
    ) -> Result<(), StaleErr>
        requires { IsFitStale self.old.place 0 (resv_left style 0 fact left) }
        ensures refused { (c : ℕ)
            → MatchResult result (λ _. refusal_of_stale self.old.place (resv_left style c fact left) (facts_at c self.old) ≡ None)
            (λ e. refusal_of_stale self.old.place (resv_left style c fact left) (facts_at c self.old) ≡ Some e) }
        ensures facts { (c : ℕ) → facts_at c self.new ≡ facts_with self.old.place c (resv_left style c fact left) (facts_at c self.old) }
        ensures place { self.new.place ≡ self.old.place }
        ensures kept { OnErr result (self.new ≡ self.old) }
    {
        self.node.stale_resv(style, fact, left)
    }

    /// A blockade is left over at the router, with this much left, in milliseconds, in place of the one that stands there. It
    /// lives no longer than one that was just set, and has the shape of one. Nothing is sent. `Full` exactly where it would be a
    /// 513th; nothing changes then.
    pub fn stale_blockade(
        &mut self,
        session: Session,
        target: Target,
        wall: Wall,
        left: u32,
    ) -> Result<(), StaleErr>
        requires { IsFitStale self.old.place 0 (wall_left (session, target) 0 wall left) }
        ensures refused { (c : ℕ)
            → MatchResult result (λ _. refusal_of_stale self.old.place (wall_left (session, target) c wall left) (facts_at c self.old) ≡ None)
            (λ e. refusal_of_stale self.old.place (wall_left (session, target) c wall left) (facts_at c self.old) ≡ Some e) }
        ensures facts { (c : ℕ) → facts_at c self.new ≡ facts_with self.old.place c (wall_left (session, target) c wall left) (facts_at c self.old) }
        ensures place { self.new.place ≡ self.old.place }
        ensures kept { OnErr result (self.new ≡ self.old) }
    {
        self.node.stale_blockade(session, target, wall, left)
    }
}
