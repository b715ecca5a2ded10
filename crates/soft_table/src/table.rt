//! The table.
ghost use Rattle.std.specs.Prelude.{◌≡◌, ◌≤◌, ◌<◌, ℕ, ◌↔◌, [], true, false, not, length, map, IsErr, IsNone, IfOk, IfSome, OnOk, OnErr, None, Some, slice_get};
ghost use Rattle.std.specs.List.{filter_map};
ghost use Rattle.std.specs.Option.{option_copied, option_map};
ghost use Rattle.std.specs.Ordering.{eq_by_cmp};
ghost use Rattle.std.specs.FinMap.Entries.{find, put, where_key};
ghost use Rattle.std.specs.Fn.{FnOnceReturnsAt};
ghost use Rattle.rsvp_base.specs.Orders.{sessions};
ghost use Rattle.rsvp_base.specs.Table.{size};
ghost use Rattle.rsvp_base.specs.Under.{rows_under};
ghost use Rattle.soft_table.specs.Facts.{fact_keys, facts_by, dead_by, sessions_in, rows_behind, IsInOrder, lives_on, dies};

use crate::cell::Slot;
use crate::fact::Fact;
use crate::finger::Finger;
use crate::order::Rests;
use crate::pool::Pool;
use crate::rows::{behind, count_sessions, fact_in, nth};
use crate::session_facts::{SessionFacts, facts_of};
use crate::session_lists::SessionLists;
use rsvp_base::{Full, NoMemory, Session};
use std::alloc::Global;
use std::marker::Model;

/// Facts that expire, one for a key. Contracts see the facts in the order of their keys with what is left of each, the
/// dead facts that wait to be pulled, and for how many facts there is room.
#[derive(Drop)]
pub struct SoftTable<F: Fact> {
    pool: Pool<F>,
    // Each key leads to the slot of its fact. A dead fact has its row until it is pulled.
    rows: SessionLists<Rests<F>>,
}

impl<F: Fact> Model for SoftTable<F> {
    ghost use Rattle.std.specs.Prelude.{◌≡◌, length};
    ghost use Rattle.soft_table.specs.Facts.{Kept};
    ghost use Rattle.soft_table.specs.Index.{facts_in, dead_in, IsIndex};

    ghost Value = { Kept F };

    ghost view = { λ t. record { facts = facts_in t.pool t.rows.rows; dead = dead_in t.pool t.rows.rows; room = length t.pool } };

    ghost invariant = { λ t. IsIndex F.rests F.key_of t.pool t.rows.rows × (t.rows.room ≡ length t.pool) };
}

impl<F: Fact> SoftTable<F> {
    /// A table with room for so many facts, at most 65,536, without any. It takes no memory later. `NoMemory`: the room
    /// could not be had.
    pub fn open(alloc: Global, room: usize) -> Result<SoftTable<F>, NoMemory>
        requires { room ≤ 65536 }
        ensures { IfOk result (λ t. t ≡ record { facts = []; dead = []; room = room }) }
    {
        let pool = Pool::open(alloc, room)?;
        let rows = SessionLists::open(alloc, room)?;
        Ok(SoftTable { pool, rows })
    }

    /// The fact of a key. `None` exactly where there is none. A dead fact does not count.
    pub fn find(&self, session: Session, rest: F::Rest) -> Option<&F>
        ensures { option_copied result ≡ option_map (λ e. e.0) (find (fact_keys F.rests).cmp (session, rest) (facts_by F.key_of self.now.facts)) }
    {
        match self.rows.find(session, rest) {
            Some(slot) => fact_in(&self.pool, Slot(slot)),
            None => None,
        }
    }

    /// Puts a fact in place of that of its key, with this much left, in milliseconds. `Full` exactly where there is none of
    /// its key and no room; nothing changes then. No dead fact may wait.
    pub fn put(&mut self, fact: F, left: u32) -> Result<(), Full>
        requires some { 1 ≤ left }
        requires pulled { self.old.dead ≡ [] }
        ensures ok { OnOk result (facts_by F.key_of self.new.facts ≡ put (fact_keys F.rests).cmp (F.key_of fact) (fact, left) (facts_by F.key_of self.old.facts)) }
        ensures order { IsInOrder F.rests F.key_of self.new }
        ensures dead { self.new.dead ≡ self.old.dead }
        ensures room { self.new.room ≡ self.old.room }
        ensures full { IsErr result ↔ ((find (fact_keys F.rests).cmp (F.key_of fact) (facts_by F.key_of self.old.facts) ≡ None) × (length self.old.facts ≡ self.old.room)) }
        ensures err { OnErr result (self.new ≡ self.old) }
    {
        let (session, rest) = fact.key();
        match self.rows.place(session, rest) {
            Ok(slot) => {
                self.pool.set(Slot(slot), fact);
                self.pool.renew(Slot(slot), left);
            }
            Err(gap) => {
                let Ok(slot) = self.pool.add(fact, left) else {
                    return Err(Full);
                };
                self.rows.insert_at(gap, session, rest, slot.0);
            }
        }
        Ok(())
    }

    /// Puts a fact in place of that of its key, and leaves what is left of that. False exactly where there is none; nothing
    /// changes then. A dead fact does not count.
    pub fn replace(&mut self, fact: F) -> bool
        ensures there { result ≡ true → (was : F) × (left : ℕ)
            × (find (fact_keys F.rests).cmp (F.key_of fact) (facts_by F.key_of self.old.facts) ≡ Some (was, left))
            × (facts_by F.key_of self.new.facts ≡ put (fact_keys F.rests).cmp (F.key_of fact) (fact, left) (facts_by F.key_of self.old.facts)) }
        ensures absent { result ≡ false → find (fact_keys F.rests).cmp (F.key_of fact) (facts_by F.key_of self.old.facts) ≡ None }
        ensures unchanged { result ≡ false → self.new ≡ self.old }
        ensures order { IsInOrder F.rests F.key_of self.new }
        ensures dead { self.new.dead ≡ self.old.dead }
        ensures room { self.new.room ≡ self.old.room }
    {
        let (session, rest) = fact.key();
        let Some(slot) = self.rows.find(session, rest) else {
            return false;
        };
        let stands = self.pool.live(Slot(slot));
        if !stands {
            return false;
        }
        self.pool.set(Slot(slot), fact);
        true
    }

    /// Leaves this much of the fact of a key, in milliseconds, where it passes a test; the fact stays in its place. False exactly
    /// where there is none, or it does not pass; nothing changes then. No dead fact may wait.
    pub fn renew_if<P: FnOnce(&F) -> bool>(
        &mut self,
        session: Session,
        rest: F::Rest,
        left: u32,
        passes: P,
    ) -> bool
        requires some { 1 ≤ left }
        requires pulled { self.old.dead ≡ [] }
        requires tested { P.IsAlwaysCallable passes }
        ensures renewed { result ≡ true → (fact : F) × (was : ℕ)
            × (find (fact_keys F.rests).cmp (session, rest) (facts_by F.key_of self.old.facts) ≡ Some (fact, was))
            × FnOnceReturnsAt P.FnOnce passes fact true
            × (facts_by F.key_of self.new.facts ≡ put (fact_keys F.rests).cmp (session, rest) (fact, left) (facts_by F.key_of self.old.facts)) }
        ensures other { result ≡ false → (fact : F) (was : ℕ)
            → find (fact_keys F.rests).cmp (session, rest) (facts_by F.key_of self.old.facts) ≡ Some (fact, was)
            → FnOnceReturnsAt P.FnOnce passes fact false }
        ensures unchanged { result ≡ false → self.new ≡ self.old }
        ensures order { IsInOrder F.rests F.key_of self.new }
        ensures dead { self.new.dead ≡ self.old.dead }
        ensures room { self.new.room ≡ self.old.room }
    {
        let Some(slot) = self.rows.find(session, rest) else {
            return false;
        };
        if !passes(self.pool.get(Slot(slot))) {
            return false;
        }
        self.pool.renew(Slot(slot), left);
        true
    }

    /// Takes the fact of a key out. `None` exactly where there is none; nothing changes then. A dead fact does not count.
    pub fn remove(&mut self, session: Session, rest: F::Rest) -> Option<F>
        ensures was { result ≡ option_map (λ e. e.0) (find (fact_keys F.rests).cmp (session, rest) (facts_by F.key_of self.old.facts)) }
        ensures gone { facts_by F.key_of self.new.facts ≡ where_key (fact_keys F.rests).cmp (λ k. not (eq_by_cmp (fact_keys F.rests).cmp (session, rest) k)) (facts_by F.key_of self.old.facts) }
        ensures order { IsInOrder F.rests F.key_of self.new }
        ensures dead { self.new.dead ≡ self.old.dead }
        ensures room { self.new.room ≡ self.old.room }
    {
        let Some(slot) = self.rows.find(session, rest) else {
            return None;
        };
        if !self.pool.live(Slot(slot)) {
            return None;
        }
        self.rows.remove_at(session, rest, slot);
        Some(self.pool.remove(Slot(slot)))
    }

    /// Lets time pass, in milliseconds. The facts with at most so much left are dead then, and wait to be pulled; the others
    /// have so much less left. No dead fact may wait from before.
    pub fn advance(&mut self, ms: u32)
        requires { self.old.dead ≡ [] }
        ensures facts { self.new.facts ≡ filter_map (lives_on ms) self.old.facts }
        ensures dead { self.new.dead ≡ filter_map (dies ms) self.old.facts }
        ensures room { self.new.room ≡ self.old.room }
        ensures order { IsInOrder F.rests F.key_of self.new }
    {
        self.pool.advance(ms);
    }

    /// Takes a dead fact out. `None` exactly where none waits; nothing changes then.
    pub fn pull_dead(&mut self) -> Option<F>
        ensures dead { IfSome result (λ f. find (fact_keys F.rests).cmp (F.key_of f) (dead_by F.key_of self.old.dead) ≡ Some f) }
        ensures pulled { IfSome result (λ f. dead_by F.key_of self.new.dead ≡ where_key (fact_keys F.rests).cmp
            (λ k. not (eq_by_cmp (fact_keys F.rests).cmp (F.key_of f) k)) (dead_by F.key_of self.old.dead)) }
        ensures order { IsInOrder F.rests F.key_of self.new }
        ensures facts { self.new.facts ≡ self.old.facts }
        ensures room { self.new.room ≡ self.old.room }
        ensures none { IsNone result → self.old.dead ≡ [] }
        ensures unchanged { IsNone result → self.new ≡ self.old }
    {
        let Some((slot, fact)) = self.pool.pull_due() else {
            return None;
        };
        let (own, rest) = fact.key();
        self.rows.remove_at(own, rest, slot.0);
        Some(fact)
    }

    /// The k-th fact of a session by the rest of its key, from 0. `None` exactly where k is not below their number. Dead
    /// facts do not count.
    pub fn at(&self, session: Session, k: usize) -> Option<&F>
        ensures { option_copied result ≡ option_map (λ e. e.1.0) (slice_get (rows_under sessions F.rests session (facts_by F.key_of self.now.facts)) k) }
    {
        let from = self.rows.first(session);
        match nth::<F>(&self.pool, &self.rows, session, from, k) {
            Some(slot) => fact_in(&self.pool, slot),
            None => None,
        }
    }

    /// The fact of a session that comes next behind the rest of a key. `None` exactly where none does. Dead facts do not
    /// count. So a session's facts are gone through one by one: from the 0th on, each behind the last. The finger only saves
    /// searching: it is left on the fact that is answered, and where it stands on that of `rest` the next one is beside it.
    pub fn after(&self, session: Session, rest: F::Rest, finger: &mut Finger) -> Option<&F>
        ensures { option_copied result ≡ option_map (λ e. e.1.0) (slice_get (rows_behind F.rests rest (rows_under sessions F.rests session (facts_by F.key_of self.now.facts))) 0) }
    {
        let from = behind::<F>(&self.pool, &self.rows, session, rest, finger.slot);
        match nth::<F>(&self.pool, &self.rows, session, from, 0) {
            Some(slot) => {
                finger.slot = slot.0;
                fact_in(&self.pool, slot)
            }
            None => None,
        }
    }

    /// The facts of a session by the rests of their keys, one after another. Dead facts do not count.
    pub fn of_session(&self, session: Session) -> SessionFacts<'_, F>
        ensures { result ≡ map (λ e. e.1.0) (rows_under sessions F.rests session (facts_by F.key_of self.now.facts)) }
    {
        facts_of(&self.pool, &self.rows, session)
    }

    /// How many facts there are. No dead fact may wait.
    pub fn len(&self) -> usize
        requires { self.now.dead ≡ [] }
        ensures { result ≡ length self.now.facts }
    {
        self.rows.len()
    }

    /// How many sessions have facts. Dead facts do not count.
    pub fn sessions(&self) -> usize
        ensures { result ≡ size (sessions_in F.key_of self.now.facts) }
    {
        count_sessions::<F>(&self.pool, &self.rows)
    }

    /// Takes all facts out, the dead that wait too.
    pub fn clear(&mut self)
        ensures facts { self.new.facts ≡ [] }
        ensures dead { self.new.dead ≡ [] }
        ensures room { self.new.room ≡ self.old.room }
    {
        self.pool.clear();
        self.rows.clear();
    }
}
