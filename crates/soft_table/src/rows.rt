//! Walks along the rows of a session.
ghost use Rattle.std.specs.Prelude.{◌≡◌, ◌<◌, ℕ, true, drop, length, is_some, IfSome, IsTrue, IsNone, None, Some, slice_get};
ghost use Rattle.std.specs.FinMap.Entries.{is_sorted};
ghost use Rattle.std.specs.Option.{option_copied, option_map};
ghost use Rattle.rsvp_base.specs.Orders.{sessions};
ghost use Rattle.rsvp_base.specs.Table.{size, kept};
ghost use Rattle.rsvp_base.specs.Under.{rows_under};
ghost use Rattle.soft_table.specs.Lists.{slot_of, sessions_of};
ghost use Rattle.soft_table.specs.Facts.{rows_behind};
ghost use Rattle.soft_table.specs.Index.{live_in, value_in};
ghost use Rattle.soft_table.specs.Walks.{AreSlots, IsRowOf, live_of, has_live};

use crate::cell::Slot;
use crate::fact::Fact;
use crate::order::Rests;
use crate::pool::Pool;
use crate::session_lists::SessionLists;
use rsvp_base::Session;
use std::cmp::Ordering;

// The fact in a slot, where it is live.
pub(crate) fn fact_in<F: Drop>(pool: &Pool<F>, slot: Slot) -> Option<&F>
    requires { slot.0 < length pool.now }
    ensures { option_copied result ≡ option_map (λ e. e.0) (live_in (slice_get pool.now slot.0)) }
{
    if pool.live(slot) {
        Some(pool.get(slot))
    } else {
        None
    }
}

// Whether the live fact of a key stands in a slot.
fn stands_in<F: Fact>(
    pool: &Pool<F>,
    room: usize,
    slot: u32,
    session: Session,
    rest: &F::Rest,
) -> bool
    requires { room ≡ length pool.now }
    ensures { result ≡ true → (f : F) × (value_in (slice_get pool.now slot) ≡ Some f) × (F.key_of f ≡ (session, rest.now)) }
{
    if room <= slot as usize || !pool.live(Slot(slot)) {
        return false;
    }
    let key = pool.get(Slot(slot)).key();
    key.0.cmp(&session).then(F::order(&key.1, rest)) == Ordering::Equal
}

// The slot of the session's first row behind the rest of a key. Nothing is searched where the key's fact is in the slot `near`.
pub(crate) fn behind<F: Fact>(
    pool: &Pool<F>,
    rows: &SessionLists<Rests<F>>,
    session: Session,
    rest: F::Rest,
    near: u32,
) -> Option<u32>
    requires room { rows.now.room ≡ length pool.now }
    requires sorted { IsTrue (is_sorted F.rests.cmp (rows_under sessions F.rests session rows.now.rows)) }
    requires led { (s : ℕ) (f : F) → value_in (slice_get pool.now s) ≡ Some f → F.key_of f ≡ (session, rest) → (j : ℕ)
        × (slice_get (rows_under sessions F.rests session rows.now.rows) j ≡ Some (rest, s)) }
    ensures { (j : ℕ) × (result ≡ slot_of (slice_get (rows_under sessions F.rests session rows.now.rows) j))
        × (rows_behind F.rests rest (rows_under sessions F.rests session rows.now.rows)
        ≡ drop j (rows_under sessions F.rests session rows.now.rows)) }
{
    if stands_in(pool, rows.room(), near, session, &rest) {
        rows.after(session, near)
    } else {
        rows.behind(session, rest)
    }
}

// The k-th fact of the session from one of its rows on: its slot. No row of another session is looked at.
pub(crate) fn nth<F: Fact>(
    pool: &Pool<F>,
    rows: &SessionLists<Rests<F>>,
    session: Session,
    from: Option<u32>,
    k: usize,
) -> Option<Slot>
    requires slots { AreSlots pool.now (rows_under sessions F.rests session rows.now.rows) }
    requires from { (j : ℕ) × (from ≡ slot_of (slice_get (rows_under sessions F.rests session rows.now.rows) j)) }
    ensures some { IfSome result (λ r. (j : ℕ) → from ≡ slot_of (slice_get (rows_under sessions F.rests session rows.now.rows) j)
        → option_map (λ e. e.1) (slice_get (live_of pool.now (drop j (rows_under sessions F.rests session rows.now.rows))) k)
        ≡ live_in (slice_get pool.now r.0)) }
    ensures within { IfSome result (λ r. r.0 < length pool.now) }
    ensures live { IfSome result (λ r. is_some (live_in (slice_get pool.now r.0)) ≡ true) }
    ensures row { IfSome result (λ r. IsRowOf F.rests pool.now rows.now.rows session r.0) }
    ensures none { IsNone result → (j : ℕ) → from ≡ slot_of (slice_get (rows_under sessions F.rests session rows.now.rows) j)
        → slice_get (live_of pool.now (drop j (rows_under sessions F.rests session rows.now.rows))) k ≡ None }
{
    let mut left = k;
    let mut at = from;
    for _step in 0..rows.len() {
        let Some(slot) = at else {
            return None;
        };
        if pool.live(Slot(slot)) {
            if left == 0 {
                return Some(Slot(slot));
            }
            left -= 1;
        }
        at = rows.after(session, slot);
    }
    None
}

// Whether a session has a fact.
fn has_fact<F: Fact>(pool: &Pool<F>, rows: &SessionLists<Rests<F>>, session: Session) -> bool
    requires { (s : Session) → AreSlots pool.now (rows_under sessions F.rests s rows.now.rows) }
    ensures { result ≡ has_live F.rests pool.now rows.now.rows session }
{
    match nth::<F>(pool, rows, session, rows.first(session), 0) {
        Some(_) => true,
        None => false,
    }
}

// How many sessions have facts. Of a session no more rows are looked at than up to its first fact.
pub(crate) fn count_sessions<F: Fact>(pool: &Pool<F>, rows: &SessionLists<Rests<F>>) -> usize
    requires { (s : Session) → AreSlots pool.now (rows_under sessions F.rests s rows.now.rows) }
    ensures { result ≡ size (kept (has_live F.rests pool.now rows.now.rows) (sessions_of rows.now.rows)) }
{
    let mut count = 0;
    for k in 0..rows.sessions() {
        if has_fact(pool, rows, rows.session(k)) {
            count += 1;
        }
    }
    count
}
