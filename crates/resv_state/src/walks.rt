//! Walks along the reservations of a session: what one more would make of its next hops and names.
ghost use Rattle.std.specs.Prelude.{◌≡◌, ◌<◌, ◌≤◌, ◌+◌, ◌↔◌, ℕ, [], true, IfOk, IsErr, None, Some, is_some, length, cond, nat_le};
ghost use Rattle.std.specs.FinMap.Entries.{find};
ghost use Rattle.soft_table.specs.Facts.{facts_by, sessions_in};
ghost use Rattle.std.specs.List.{list_any};
ghost use Rattle.std.specs.Ordering.{eq_by_cmp};
ghost use Rattle.rsvp_base.specs.Rows.{AreRows};
ghost use Rattle.rsvp_base.specs.Sets.{IsWithin, union};
ghost use Rattle.rsvp_base.specs.Table.{size};
ghost use Rattle.resv_state.specs.declared.fact.Held.{Held};
ghost use Rattle.style_rules.specs.Lines.{line_keys, next_hops};
ghost use Rattle.soft_table.specs.Walks.{changes, is_last};
ghost use Rattle.resv_state.specs.Resvs.{held_key, held_row};
ghost use Rattle.resv_state.specs.Walks.{AreFew, held_under, hops_in, is_full, rests, with_hop, with_names};

use crate::fact::{Held, rest_order};
use rsvp_base::{Addr, Full, Part, Senders, Session, Unit};
use soft_table::{Fact, SoftTable};
use std::cmp::Ordering;

// At most so many facts, and next hops of a session.
pub(crate) const FACTS: usize = 1024;

const SESSIONS: usize = 32;

const NEXT_HOPS: usize = 64;

// Whether two next hops are one.
fn is_hop(a: (u8, Addr), b: (u8, Addr)) -> bool
    ensures { result ≡ eq_by_cmp next_hops.cmp a b }
{
    a.0.cmp(&b.0).then(a.1.cmp(&b.1)) == Ordering::Equal
}

// Whether the next hop is the last one met.
fn is_last_hop(last: Option<(u8, Addr)>, hop: (u8, Addr)) -> bool
    ensures { result ≡ is_last next_hops last hop }
{
    match last {
        Some(other) => is_hop(other, hop),
        None => false,
    }
}

// Whether two keys of a session are one.
pub(crate) fn is_rest(a: &((u8, Addr), Unit), b: &((u8, Addr), Unit)) -> bool
    ensures { result ≡ eq_by_cmp rests.cmp a.now b.now }
{
    rest_order(a, b) == Ordering::Equal
}

// How many next hops a session has: those of one stand together.
fn count_hops(table: &SoftTable<Held>, session: Session) -> usize
    requires { AreFew (held_under session table.now.facts) }
    ensures { result ≡ changes next_hops None (hops_in (held_under session table.now.facts)) }
{
    let mut count = 0;
    let mut last = None;
    for held in table.of_session(session) {
        let hop = (held.fact.iface, held.fact.next);
        if !is_last_hop(last, hop) {
            count += 1;
            last = Some(hop);
        }
    }
    count
}

// Whether a session has a next hop.
fn has_hop(table: &SoftTable<Held>, session: Session, hop: (u8, Addr)) -> bool
    ensures { result ≡ list_any (eq_by_cmp next_hops.cmp hop) (hops_in (held_under session table.now.facts)) }
{
    table
        .of_session(session)
        .any(|held| is_hop(hop, (held.fact.iface, held.fact.next)))
}

// Whether a session may have this next hop, beside its others.
pub(crate) fn fits_hop(table: &SoftTable<Held>, session: Session, hop: (u8, Addr)) -> bool
    requires rising { AreRows line_keys held_row table.now.facts }
    requires few { AreFew (held_under session table.now.facts) }
    ensures { result ≡ nat_le (size (with_hop hop (held_under session table.now.facts))) 64 }
{
    let count = count_hops(table, session);
    if count < NEXT_HOPS {
        return true;
    }
    count == NEXT_HOPS && has_hop(table, session, hop)
}

// The names of both lists. Most lists of a session have the same names, and nothing is put together then.
fn union(names: &Senders, more: &Senders) -> Result<Senders, Full>
    ensures ok { IfOk result (λ all. all ≡ union names.now more.now) }
    ensures full { IsErr result ↔ (16 < size (union names.now more.now)) }
{
    if more.is_within(names) {
        return Ok(names.copy());
    }
    names.union(more)
}

// Whether a session may have the names of this part, beside those of its reservations but the one of this key.
pub(crate) fn fits_names(
    table: &SoftTable<Held>,
    session: Session,
    key: &((u8, Addr), Unit),
    part: &Part,
) -> bool
    ensures { result ≡ nat_le (size (with_names key.now part.now.senders (held_under session table.now.facts))) 16 }
{
    let mut names = part.senders.copy();
    for held in table.of_session(session) {
        let (_, rest) = held.key();
        if !is_rest(key, &rest) {
            match union(&names, &held.fact.part.senders) {
                Ok(all) => names = all,
                Err(_) => return false,
            }
        }
    }
    names.len() <= 16
}

// Whether the fact of a key has all of these senders, so that one with them takes no more room in its place.
pub(crate) fn is_refresh(
    table: &SoftTable<Held>,
    session: Session,
    key: &((u8, Addr), Unit),
    senders: &Senders,
) -> bool
    ensures { result ≡ true → (e : Held × ℕ) × (find line_keys.cmp (session, key.now) (facts_by held_key table.now.facts) ≡ Some e) × IsWithin senders.now e.0.fact.part.senders }
{
    match table.find(session, *key) {
        Some(held) => senders.is_within(&held.fact.part.senders),
        None => false,
    }
}

// Whether the table may have a fact of this key beside its others.
pub(crate) fn fits_fact(table: &SoftTable<Held>, session: Session, key: &((u8, Addr), Unit)) -> bool
    requires pulled { table.now.dead ≡ [] }
    requires few { length table.now.facts ≤ 1024 }
    ensures { result ≡ nat_le (cond (is_some (find line_keys.cmp (session, key.now) (facts_by held_key table.now.facts))) (length table.now.facts) (length table.now.facts + 1)) 1024 }
{
    if table.find(session, *key).is_some() {
        return true;
    }
    table.len() < FACTS
}

// Whether the table may have this session beside its others.
pub(crate) fn fits_session(table: &SoftTable<Held>, session: Session) -> bool
    requires { size (sessions_in held_key table.now.facts) ≤ 32 }
    ensures { result ≡ nat_le (cond (is_full (held_under session table.now.facts)) (size (sessions_in held_key table.now.facts)) (size (sessions_in held_key table.now.facts) + 1)) 32 }
{
    if table.at(session, 0).is_some() {
        return true;
    }
    table.sessions() < SESSIONS
}
