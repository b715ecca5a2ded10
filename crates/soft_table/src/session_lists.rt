//! The lists.
ghost use Rattle.std.specs.Prelude.{◌≡◌, ◌<◌, ◌≤◌, ◌+◌, ℕ, [], true, not, length, IfOk, IfErr, IfSome, IsTrue, Option, Some, None, slice_get};
ghost use Rattle.std.specs.FinMap.Entries.{find, put, where_key, is_sorted};
ghost use Rattle.std.specs.Ordering.{eq_by_cmp, is_gt};
ghost use Rattle.soft_table.specs.Lists.{AreLists, AreHeld, IsStart, IsWalked, IsRow, IsGap, IsGapIn, IsUpTo, IsFrom, row_keys, rows_of, first_of, slot_of, rows_behind, sessions_of};
ghost use Rattle.rsvp_base.specs.Orders.{sessions};
ghost use Rattle.rsvp_base.specs.Table.{keys, size};
ghost use Rattle.rsvp_base.specs.Under.{rows_under};

use crate::heads::{Head, first_in, led_to, put_first, take_first};
use crate::marks::{Mark, count_in, count_out, most};
use crate::rest_order::RestOrder;
use crate::ring::Ring;
use crate::row_keys::{key_at, key_of, of_session, set_key, unset_key};
use rsvp_base::{NoMemory, Session};
use std::alloc::Global;
use std::cmp::Ordering;
use std::marker::Model;

/// Rows of sessions. Contracts see the rows in the order of their keys, each with its slot, and how many slots there are.
#[derive(Drop)]
pub struct SessionLists<O: RestOrder> {
    slots: Ring,
    // Of each slot the key of its row, where it has one.
    keys: Vec<Option<(Session, O::Rest)>>,
    // In the order of sessions.
    heads: Vec<Head>,
    // In the order of keys.
    marks: Vec<Mark>,
}

impl<O: RestOrder> Model for SessionLists<O> {
    ghost use Rattle.std.specs.Prelude.{◌≤◌, length, vec_capacity};
    ghost use Rattle.soft_table.specs.Lists.{Rows, AreLists, AreHeld, rows_of};

    ghost Value = { Rows O.Rest };

    ghost view = { λ t. record { rows = rows_of t.keys.items t.slots.slots; room = t.slots.room } };

    ghost invariant = { λ t. AreLists O.rests t.keys.items t.slots.slots t.heads.items
        × (t.slots.room ≤ vec_capacity t.keys) × (t.slots.room ≤ vec_capacity t.heads) × AreHeld t.keys.items t.slots.slots };
}

// How a key stands to another.
#[inline(always)]
fn order<O: RestOrder>(key: &(Session, O::Rest), session: Session, rest: &O::Rest) -> Ordering
    ensures { result ≡ (row_keys O.rests).cmp key.now (session, rest.now) }
{
    match key.0.cmp(&session) {
        Ordering::Equal => O::order(&key.1, rest),
        apart => apart,
    }
}

// Whether a key is behind another.
#[inline(always)]
fn is_behind<O: RestOrder>(key: &(Session, O::Rest), session: Session, rest: &O::Rest) -> bool
    ensures { result ≡ is_gt ((row_keys O.rests).cmp key.now (session, rest.now)) }
{
    order::<O>(key, session, rest).is_gt()
}

/// Where the row of a key would go that has none.
#[derive(Clone, Copy, Debug)]
pub struct Gap {
    // The row behind it.
    behind: Option<u32>,
}

// Where a walk to a key has come.
#[derive(Clone, Copy)]
enum Walked {
    // To the key's row.
    Row(u32),
    // To the place where it would go: it has none.
    Gap(Gap),
    // To this row, with all steps that it may take. The rows before it are before the key.
    Far(u32),
}

// Walks along the rows to a key, so many steps at most. The rows before the one where it begins are before the key.
fn walk<O: RestOrder>(
    slots: &Ring,
    keys: &[Option<(Session, O::Rest)>],
    from: u32,
    steps: usize,
    session: Session,
    rest: &O::Rest,
) -> Walked
    requires full { (i : ℕ) (s : ℕ) → slice_get slots.now.slots i ≡ Some s → (k : Session × O.Rest) × (slice_get keys.now s ≡ Some (Some k)) }
    requires sorted { IsTrue (is_sorted (row_keys O.rests).cmp (rows_of keys.now slots.now.slots)) }
    requires start { IsStart O.rests keys.now slots.now.slots (session, rest.now) (Some from) }
    ensures { IsWalked O.rests keys.now slots.now.slots (session, rest.now) steps result }
{
    let mut slot = from;
    for _step in 0..steps {
        let key = key_at(keys, slot);
        match order::<O>(&key, session, rest) {
            Ordering::Less => {}
            Ordering::Equal => return Walked::Row(slot),
            Ordering::Greater => return Walked::Gap(Gap { behind: Some(slot) }),
        }
        match slots.after(slot) {
            Some(next) => slot = next,
            None => return Walked::Gap(Gap { behind: None }),
        }
    }
    Walked::Far(slot)
}

// How many marks are not behind a key, and the row of the last of them.
#[derive(Clone, Copy)]
struct Passed {
    count: usize,
    last: Option<u32>,
}

// Whether a mark is not behind a key. One whose row is gone is taken to be.
fn is_up_to<O: RestOrder>(
    keys: &[Option<(Session, O::Rest)>],
    mark: u32,
    session: Session,
    rest: &O::Rest,
) -> bool
    ensures { result ≡ true → IsUpTo O.rests keys.now (session, rest.now) mark }
{
    match key_of(keys, mark) {
        Some(key) => !is_behind::<O>(&key, session, rest),
        None => false,
    }
}

// The marks that are not behind a key.
fn pass_marks<O: RestOrder>(
    keys: &[Option<(Session, O::Rest)>],
    marks: &[Mark],
    session: Session,
    rest: &O::Rest,
) -> Passed
    ensures { IfSome result.last (λ s. IsUpTo O.rests keys.now (session, rest.now) s) }
{
    let mut last = None;
    let mut count = 0;
    let mut behind = marks.len();
    while count < behind {
        let middle = count + (behind - count) / 2;
        let mark = marks[middle].slot;
        if is_up_to::<O>(keys, mark, session, rest) {
            last = Some(mark);
            count = middle + 1;
        } else {
            behind = middle;
        }
    }
    Passed { count, last }
}

// From where a walk to a key goes on that has come to this row: from the last mark that is not behind the key, where that
// is further.
fn further<O: RestOrder>(
    keys: &[Option<(Session, O::Rest)>],
    marks: &[Mark],
    slot: u32,
    session: Session,
    rest: &O::Rest,
) -> u32
    requires { (k : Session × O.Rest) × (slice_get keys.now slot ≡ Some (Some k)) }
    ensures { IsFrom O.rests keys.now (session, rest.now) slot result }
{
    let Some(mark) = pass_marks::<O>(keys, marks, session, rest).last else {
        return slot;
    };
    let marked = key_at(keys, mark);
    let here = key_at(keys, slot);
    if is_behind::<O>(&marked, here.0, &here.1) {
        mark
    } else {
        slot
    }
}

// How many rows of a session are passed before marks are asked.
const NEAR: usize = 8;

// The slot of a key's row. `Err`: it has none. Where its session has none, nothing is walked; else the walk begins at the
// session's first row.
fn row_of<O: RestOrder>(
    slots: &Ring,
    keys: &[Option<(Session, O::Rest)>],
    heads: &[Head],
    marks: &[Mark],
    session: Session,
    rest: &O::Rest,
) -> Result<u32, Gap>
    requires lists { AreLists O.rests keys.now slots.now.slots heads.now }
    requires held { AreHeld keys.now slots.now.slots }
    ensures there { IfOk result (λ s. IsRow O.rests keys.now slots.now.slots (session, rest.now) s) }
    ensures absent { IfErr result (λ g. IsGap O.rests keys.now slots.now.slots (session, rest.now) g.behind) }
{
    let first = match led_to(heads, session) {
        Ok(first) => first,
        Err(behind) => return Err(Gap { behind }),
    };
    match walk::<O>(slots, keys, first, NEAR, session, rest) {
        Walked::Row(slot) => Ok(slot),
        Walked::Gap(gap) => Err(gap),
        Walked::Far(slot) => far_row::<O>(slots, keys, marks, slot, session, rest),
    }
}

// The same where the walk has come to this row.
fn far_row<O: RestOrder>(
    slots: &Ring,
    keys: &[Option<(Session, O::Rest)>],
    marks: &[Mark],
    slot: u32,
    session: Session,
    rest: &O::Rest,
) -> Result<u32, Gap>
    requires full { (i : ℕ) (s : ℕ) → slice_get slots.now.slots i ≡ Some s → (k : Session × O.Rest) × (slice_get keys.now s ≡ Some (Some k)) }
    requires sorted { IsTrue (is_sorted (row_keys O.rests).cmp (rows_of keys.now slots.now.slots)) }
    requires held { AreHeld keys.now slots.now.slots }
    requires start { IsStart O.rests keys.now slots.now.slots (session, rest.now) (Some slot) }
    ensures there { IfOk result (λ s. IsRow O.rests keys.now slots.now.slots (session, rest.now) s) }
    ensures absent { IfErr result (λ g. IsGap O.rests keys.now slots.now.slots (session, rest.now) g.behind) }
{
    let from = further::<O>(keys, marks, slot, session, rest);
    match walk::<O>(slots, keys, from, slots.len(), session, rest) {
        Walked::Row(slot) => Ok(slot),
        Walked::Gap(gap) => Err(gap),
        Walked::Far(_) => unreachable!(),
    }
}

impl<O: RestOrder> SessionLists<O> {
    /// Room for the rows of so many slots, at most 65,536, without any. It takes no memory later. `NoMemory`: the room could
    /// not be had.
    pub fn open(alloc: Global, room: usize) -> Result<SessionLists<O>, NoMemory>
        requires { room ≤ 65536 }
        ensures { IfOk result (λ t. t ≡ record { rows = []; room = room }) }
    {
        let slots = Ring::open(alloc, room)?;
        let keys = Vec::with_capacity(alloc, room)?;
        let heads = Vec::with_capacity(alloc, room)?;
        let marks = Vec::with_capacity(alloc, most(room))?;
        Ok(SessionLists {
            slots,
            keys,
            heads,
            marks,
        })
    }

    /// The slot of a key's row. `None` exactly where it has none.
    pub fn find(&self, session: Session, rest: O::Rest) -> Option<u32>
        ensures { result ≡ find (row_keys O.rests).cmp (session, rest) self.now.rows }
    {
        self.place(session, rest).ok()
    }

    /// The slot of a key's row. `Err` exactly where it has none, with the place where one would go.
    pub fn place(&self, session: Session, rest: O::Rest) -> Result<u32, Gap>
        ensures there { IfOk result (λ s. find (row_keys O.rests).cmp (session, rest) self.now.rows ≡ Some s) }
        ensures absent { IfErr result (λ g. IsGapIn O.rests self.now.rows (session, rest) g) }
    {
        row_of::<O>(
            &self.slots,
            self.keys.as_slice(),
            self.heads.as_slice(),
            self.marks.as_slice(),
            session,
            &rest,
        )
    }

    /// Puts the row of a key in at its place, with a slot that has no row yet. No row is walked along.
    pub fn insert_at(&mut self, gap: Gap, session: Session, rest: O::Rest, slot: u32)
        requires gap { IsGapIn O.rests self.old.rows (session, rest) gap }
        requires left { length self.old.rows < self.old.room }
        requires within { slot < self.old.room }
        requires new { (i : ℕ) (e : (Session × O.Rest) × ℕ) → slice_get self.old.rows i ≡ Some e → e.1 ≡ slot → ⊥ }
        ensures { self.new ≡ record { rows = put (row_keys O.rests).cmp (session, rest) slot self.old.rows; room = self.old.room } }
    {
        let passed = pass_marks::<O>(self.keys.as_slice(), self.marks.as_slice(), session, &rest);
        put_first(&mut self.heads, session, gap.behind, slot);
        self.slots.insert(slot, gap.behind);
        set_key(&mut self.keys, slot, (session, rest));
        count_in(
            &mut self.marks,
            passed.count,
            &self.slots,
            self.keys.as_slice(),
            slot,
        );
    }

    /// Takes the row of a key out, which has this slot. No row is walked along.
    pub fn remove_at(&mut self, session: Session, rest: O::Rest, slot: u32)
        requires { find (row_keys O.rests).cmp (session, rest) self.old.rows ≡ Some slot }
        ensures { self.new ≡ record { rows = where_key (row_keys O.rests).cmp (λ k. not (eq_by_cmp (row_keys O.rests).cmp (session, rest) k)) self.old.rows; room = self.old.room } }
    {
        let passed = pass_marks::<O>(self.keys.as_slice(), self.marks.as_slice(), session, &rest);
        let next = self.slots.after(slot);
        let behind = of_session(self.keys.as_slice(), next, session);
        take_first(&mut self.heads, session, slot, behind);
        count_out(&mut self.marks, passed.count, slot, next);
        self.slots.remove(slot);
        unset_key(&mut self.keys, slot);
    }

    /// The slot of a session's first row. `None` exactly where it has none.
    pub fn first(&self, session: Session) -> Option<u32>
        ensures { result ≡ first_of O.rests session self.now.rows }
    {
        first_in(self.heads.as_slice(), session)
    }

    /// The slot of the row of a session behind one of its rows. `None` exactly where that is the last. So a session's rows
    /// are gone through one by one, and no others are looked at.
    pub fn after(&self, session: Session, slot: u32) -> Option<u32>
        requires { (j : ℕ) × (rest : O.Rest) × (slice_get (rows_under sessions O.rests session self.now.rows) j ≡ Some (rest, slot)) }
        ensures { (j : ℕ) (rest : O.Rest) → slice_get (rows_under sessions O.rests session self.now.rows) j ≡ Some (rest, slot)
            → result ≡ slot_of (slice_get (rows_under sessions O.rests session self.now.rows) (j + 1)) }
    {
        of_session(self.keys.as_slice(), self.slots.after(slot), session)
    }

    /// The slot of the first row of a session behind the rest of a key, whether this has a row or not. `None` exactly where
    /// none is behind it.
    pub fn behind(&self, session: Session, rest: O::Rest) -> Option<u32>
        ensures { result ≡ slot_of (slice_get (rows_behind O.rests rest (rows_under sessions O.rests session self.now.rows)) 0) }
    {
        let row = row_of::<O>(
            &self.slots,
            self.keys.as_slice(),
            self.heads.as_slice(),
            self.marks.as_slice(),
            session,
            &rest,
        );
        match row {
            Ok(slot) => of_session(self.keys.as_slice(), self.slots.after(slot), session),
            Err(gap) => of_session(self.keys.as_slice(), gap.behind, session),
        }
    }

    /// The k-th of the sessions that have rows, in their order.
    pub fn session(&self, k: usize) -> Session
        requires { k < size (sessions_of self.now.rows) }
        ensures { slice_get (keys (sessions_of self.now.rows)) k ≡ Some result }
    {
        self.heads[k].session
    }

    /// For how many rows there is room.
    pub fn room(&self) -> usize
        ensures { result ≡ self.now.room }
    {
        self.slots.room()
    }

    /// How many sessions have rows.
    pub fn sessions(&self) -> usize
        ensures { result ≡ size (sessions_of self.now.rows) }
    {
        self.heads.len()
    }

    /// How many rows there are.
    pub fn len(&self) -> usize
        ensures { result ≡ length self.now.rows }
    {
        self.slots.len()
    }

    /// Takes all rows out.
    pub fn clear(&mut self)
        ensures { self.new ≡ record { rows = []; room = self.old.room } }
    {
        self.slots.clear();
        self.keys.clear();
        self.heads.clear();
        self.marks.clear();
    }
}
