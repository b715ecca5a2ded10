//! The table of paths.
ghost use Rattle.std.specs.Prelude.{◌≡◌, ◌≤◌, ℕ, ◌↔◌, [], false, if◌then◌else◌, nat_lt, length, map, true, IsErr, IsNone, IfOk, IfSome, OnOk, OnErr, Some, slice_get};
ghost use Rattle.std.specs.Fn.{FnOnceReturnsAt};
ghost use Rattle.std.specs.List.{list_any};
ghost use Rattle.std.specs.Option.{option_copied, option_map};
ghost use Rattle.rsvp_base.specs.Orders.{sessions, senders};
ghost use Rattle.rsvp_base.specs.Rows.{AreRows, table_of};
ghost use Rattle.rsvp_base.specs.Sets.{with_key};
ghost use Rattle.rsvp_base.specs.SessionLimits.{has_room_at, IsWithinSessionLimits};
ghost use Rattle.rsvp_base.specs.Table.{empty, get, has, keys, put_in, size, without, changed};
ghost use Rattle.rsvp_base.specs.Under.{under};
ghost use Rattle.path_state.specs.Paths.{AreByKey, path_keys, fact_row, dead_row, comes_by, hops_by, is_from, via, later, dead_after};

use crate::fact::PathFact;
use crate::hops::Hops;
use crate::walks;
use rsvp_base::{Addr, Full, NoMemory, Sender, Senders, Session};
use soft_table::{SessionFacts, SoftTable};
use std::alloc::Global;
use std::marker::Model;

// At most so many sessions, and so many senders of each.
const SESSIONS: usize = 32;

const SENDERS: usize = 16;

/// The paths that a node knows, one for a session and sender. Contracts see a finite map from session and sender to the fact
/// and the milliseconds that are left of it, and a finite map of the dead facts that wait to be pulled. At most 32 sessions
/// have facts, and 16 senders of each.
#[derive(Drop)]
pub struct PathTable {
    table: SoftTable<PathFact>,
    ghost facts: { AreRows path_keys fact_row table.facts },
    ghost dead: { AreRows path_keys dead_row table.dead },
    ghost room: { table.room ≡ 512 },
    ghost within: { IsWithinSessionLimits senders (table_of path_keys fact_row table.facts facts) },
}

impl Model for PathTable {
    ghost use Rattle.rsvp_base.specs.Rows.{table_of};
    ghost use Rattle.path_state.specs.Paths.{PathMap, path_map_code, path_keys, fact_row, dead_row};

    ghost Value = { PathMap };

    ghost coded = { path_map_code };

    ghost view = { λ t. record { facts = table_of path_keys fact_row t.table.facts t.facts; dead = table_of path_keys dead_row t.table.dead t.dead } };
}

impl PathTable {
    /// A table without paths. It takes no memory later. `NoMemory`: its room could not be had.
    pub fn open(alloc: Global) -> Result<PathTable, NoMemory>
        ensures { IfOk result (λ t. t ≡ record { facts = empty; dead = empty }) }
    {
        let table = SoftTable::open(alloc, SESSIONS * SENDERS)?;
        Ok(PathTable { table })
    }

    /// Keeps a fact with this much left, in milliseconds, in place of that of its session and sender. `Full` exactly where
    /// this would be a fact of a 33rd session, or of a 17th sender of its session; nothing changes then. No dead fact may
    /// wait.
    pub fn learn(&mut self, fact: PathFact, left: u32) -> Result<(), Full>
        requires some { 1 ≤ left }
        requires pulled { self.old.dead.rows ≡ [] }
        ensures ok { OnOk result (self.new ≡ record self.old { facts = put_in self.old.facts (fact.session, fact.sender) (fact, left) }) }
        ensures full { IsErr result ↔ (has_room_at senders (put_in self.old.facts (fact.session, fact.sender) (fact, left)) fact.session ≡ false) }
        ensures err { OnErr result (self.new ≡ self.old) }
    {
        if !self.has_room(fact.session, fact.sender) {
            return Err(Full);
        }
        self.keep(fact, left);
        Ok(())
    }

    /// Keeps a fact with this much left, in milliseconds, in place of the one that its session and sender have. No dead fact may
    /// wait.
    pub fn renew(&mut self, fact: PathFact, left: u32)
        requires some { 1 ≤ left }
        requires pulled { self.old.dead.rows ≡ [] }
        requires stands { has self.old.facts (fact.session, fact.sender) ≡ true }
        ensures { self.new ≡ record self.old { facts = put_in self.old.facts (fact.session, fact.sender) (fact, left) } }
    {
        self.limits();
        self.keep(fact, left);
    }

    /// Leaves this much of the fact of a session and sender, in milliseconds, where it passes a test; the fact stays in its place.
    /// False exactly where there is none, or it does not pass; nothing changes then. No dead fact may wait.
    pub fn renew_if<P: FnOnce(&PathFact) -> bool>(
        &mut self,
        session: Session,
        sender: Sender,
        left: u32,
        passes: P,
    ) -> bool
        requires some { 1 ≤ left }
        requires pulled { self.old.dead.rows ≡ [] }
        requires tested { P.IsAlwaysCallable passes }
        ensures renewed { result ≡ true → (fact : PathFact) × (was : ℕ)
            × (get self.old.facts (session, sender) ≡ Some (fact, was))
            × FnOnceReturnsAt P.FnOnce passes fact true
            × (self.new ≡ record self.old { facts = put_in self.old.facts (session, sender) (fact, left) }) }
        ensures other { result ≡ false → (fact : PathFact) (was : ℕ)
            → get self.old.facts (session, sender) ≡ Some (fact, was)
            → FnOnceReturnsAt P.FnOnce passes fact false }
        ensures unchanged { result ≡ false → self.new ≡ self.old }
    {
        self.table.renew_if(session, sender, left, passes)
    }

    // Keeps a fact for which there is room.
    fn keep(&mut self, fact: PathFact, left: u32)
        requires some { 1 ≤ left }
        requires pulled { self.old.dead.rows ≡ [] }
        requires room { has_room_at senders (put_in self.old.facts (fact.session, fact.sender) (fact, left)) fact.session ≡ true }
        ensures { self.new ≡ record self.old { facts = put_in self.old.facts (fact.session, fact.sender) (fact, left) } }
    {
        let Ok(()) = self.table.put(fact, left) else {
            unreachable!();
        };
    }

    // Whether a fact of this session and sender may be kept.
    fn has_room(&self, session: Session, sender: Sender) -> bool
        ensures { (e : PathFact × ℕ) → result ≡ has_room_at senders (put_in self.now.facts (session, sender) e) session }
    {
        if self.table.find(session, sender).is_some() {
            return true;
        }
        if self.table.at(session, 0).is_some() {
            return self.table.at(session, SENDERS - 1).is_none();
        }
        self.table.sessions() < SESSIONS
    }

    /// Takes the fact of a session and sender out. `None` exactly where there is none; nothing changes then.
    pub fn tear(&mut self, session: Session, sender: Sender) -> Option<PathFact>
        ensures was { result ≡ option_map (λ e. e.0) (get self.old.facts (session, sender)) }
        ensures gone { self.new ≡ record self.old { facts = without self.old.facts (session, sender) } }
    {
        self.table.remove(session, sender)
    }

    /// The fact of a session and sender. `None` exactly where there is none.
    pub fn find(&self, session: Session, sender: Sender) -> Option<&PathFact>
        ensures fact { option_copied result ≡ option_map (λ e. e.0) (get self.now.facts (session, sender)) }
        // What holds of every table.
        ensures keyed { AreByKey self.now.facts }
        ensures within { IsWithinSessionLimits senders self.now.facts }
    {
        self.table.find(session, sender)
    }

    /// The k-th fact of a session by sender, from 0. `None` exactly where k is not below their number.
    pub fn at(&self, session: Session, k: usize) -> Option<&PathFact>
        ensures { option_copied result ≡ option_map (λ e. e.1.0) (slice_get (under sessions senders self.now.facts session).rows k) }
    {
        self.table.at(session, k)
    }

    /// The facts of a session by sender, one after another.
    pub fn of_session(&self, session: Session) -> SessionFacts<'_, PathFact>
        ensures facts { result ≡ map (λ e. e.1.0) (under sessions senders self.now.facts session).rows }
        ensures senders { map (λ f. f.sender) result ≡ keys (under sessions senders self.now.facts session) }
        ensures few { length result ≤ 16 }
    {
        self.table.of_session(session)
    }

    /// What holds of every table: each fact stands under its own session and sender, and the facts are within the limits. This
    /// says it to who needs to know, and looks nothing up.
    pub fn limits(&self)
        ensures keyed { AreByKey self.now.facts }
        ensures within { IsWithinSessionLimits senders self.now.facts }
    {
        let _table = &self.table;
    }

    /// The senders of a session whose facts have this interface and this hop address.
    pub fn senders_via(&self, session: Session, iface: u8, addr: Addr) -> Senders
        ensures { result ≡ via self.now.facts session iface addr }
    {
        walks::senders_via(&self.table, session, iface, addr)
    }

    /// The previous hops of a session: the interface and the hop address of each of its facts.
    pub fn hops(&self, session: Session) -> Hops
        ensures { result ≡ hops_by (under sessions senders self.now.facts session).rows }
    {
        walks::hops(&self.table, session)
    }

    /// Whether a session has a fact of a sender with this address.
    pub fn has_address(&self, session: Session, addr: Addr) -> bool
        ensures { result ≡ list_any (is_from addr) (keys (under sessions senders self.now.facts session)) }
    {
        walks::has_address(&self.table, session, addr)
    }

    /// Whether a session has facts.
    pub fn has_session(&self, session: Session) -> bool
        ensures { result ≡ nat_lt 0 (size (under sessions senders self.now.facts session)) }
    {
        self.table.at(session, 0).is_some()
    }

    /// Lets time pass, in milliseconds. The facts with at most so much left are dead then, and wait to be pulled; the others
    /// have so much less left. No dead fact may wait from before.
    pub fn advance(&mut self, ms: u32)
        requires { self.old.dead.rows ≡ [] }
        ensures facts { self.new.facts ≡ changed (later ms) self.old.facts }
        ensures dead { self.new.dead ≡ changed (dead_after ms) self.old.facts }
    {
        self.table.advance(ms);
    }

    /// Takes a dead fact out. `None` exactly where none waits; nothing changes then.
    pub fn pull_dead(&mut self) -> Option<PathFact>
        ensures dead { IfSome result (λ f. get self.old.dead (f.session, f.sender) ≡ Some f) }
        ensures pulled { IfSome result (λ f. self.new ≡ record self.old { dead = without self.old.dead (f.session, f.sender) }) }
        ensures none { IsNone result → self.old.dead.rows ≡ [] }
        ensures unchanged { IsNone result → self.new ≡ self.old }
    {
        let Some(fact) = self.table.pull_dead() else {
            return None;
        };
        Some(fact)
    }

    /// Takes all facts out, the dead that wait too.
    pub fn clear(&mut self)
        ensures { self.new ≡ record { facts = empty; dead = empty } }
    {
        self.table.clear();
    }
}
