//! Sessions with the previous hops that they had before.
ghost use Rattle.std.specs.Prelude.{◌≡◌, ◌≤◌, ◌<◌, ◌+◌, ◌||◌, ◌++◌, [], ◌∷◌, true, false, cond, length, map, vec_capacity, IfOk};
ghost use Rattle.std.specs.Ordering.{eq_by_cmp};
ghost use Rattle.rsvp_base.specs.Orders.{sessions};
ghost use Rattle.rsvp_base.specs.Rows.{AreRows};
ghost use Rattle.rsvp_base.specs.Sets.{with_key};
ghost use Rattle.rsvp_base.specs.Table.{changed, empty, has, kept, size};
ghost use Rattle.rsvp_base.specs.declared.session.Session.{Session};
ghost use Rattle.blockade_state.specs.Touched.{is_touched};
ghost use Rattle.router_rounds.specs.Nears.{hops_before, hops_then, near_row, noted_before};

use blockade_state::Touched;
use local_state::{Countdowns, Fired};
use path_state::{Hops, PathTable};
use router_aging::{LostHop, LostHops};
use rsvp_base::{NoMemory, Session};
use std::alloc::Global;
use std::marker::Model;

// At most so many sessions have a countdown.
const ROOM: usize = 64;

// A session, and previous hops of it.
#[derive(Drop)]
pub(crate) struct Near {
    pub(crate) session: Session,
    pub(crate) hops: Hops,
}

// Sessions in order, at most 64, each with its previous hops at some moment. Contracts see a finite map from session to them.
#[derive(Drop)]
pub(crate) struct Nears {
    rows: Vec<Near>,
    ghost rising: { AreRows sessions near_row rows.items },
    ghost few: { length rows.items ≤ 64 },
    ghost room: { 64 ≤ vec_capacity rows },
}

impl Model for Nears {
    ghost use Rattle.rsvp_base.specs.Orders.{sessions};
    ghost use Rattle.rsvp_base.specs.Rows.{table_of};
    ghost use Rattle.router_rounds.specs.Nears.{NearTable, near_code, near_row};

    ghost Value = { NearTable };

    ghost coded = { near_code };

    ghost view = { λ n. table_of sessions near_row n.rows.items n.rising };
}

impl Nears {
    // None. It takes no memory later. `NoMemory`: the room could not be had.
    pub(crate) fn open(alloc: Global) -> Result<Nears, NoMemory>
        ensures { IfOk result (λ n. n ≡ empty) }
    {
        let rows = Vec::with_capacity(alloc, ROOM).map_err(|_| NoMemory)?;
        Ok(Nears { rows })
    }

    // All sessions that have a countdown, each with its previous hops as they are now, in place of what was there.
    pub(crate) fn note(&mut self, due: &Countdowns, paths: &PathTable)
        ensures { self.new ≡ changed (hops_then paths.now.facts) due.now }
    {
        self.rows.clear();
        note_all(&mut self.rows, due, paths);
    }

    // The sessions that are watched and of which something changed, or that came due, each with its previous hops as they were
    // before paths died, in place of what was there. Nothing is looked up of the others.
    pub(crate) fn note_touched(
        &mut self,
        touched: &Touched,
        fired: &Fired,
        paths: &PathTable,
        lost: &LostHops,
    )
        requires { (s : Session) → size (hops_before paths.now.facts lost.now s) ≤ 16 }
        ensures { self.new ≡ kept (λ s. is_touched touched.now s || has fired.now s) (changed (noted_before paths.now.facts lost.now) touched.now) }
    {
        self.rows.clear();
        note_some(&mut self.rows, touched, fired, paths, lost);
    }

    // The sessions in order, each with its hops.
    pub(crate) fn as_slice(&self) -> &[Near]
        ensures rows { map near_row result.now ≡ self.now.rows }
        ensures few { length result.now ≤ 64 }
    {
        self.rows.as_slice()
    }
}

// Adds each session that has a countdown, with its previous hops. The room is there.
fn note_all(rows: &mut Vec<Near>, due: &Countdowns, paths: &PathTable)
    requires none { rows.old.items ≡ [] }
    requires room { 64 ≤ vec_capacity rows.old }
    ensures rows { map near_row rows.new.items ≡ (changed (hops_then paths.now.facts) due.now).rows }
    ensures few { length rows.new.items ≤ 64 }
    ensures capacity { vec_capacity rows.old ≤ vec_capacity rows.new }
{
    for k in 0..due.len() {
        let Some((session, _)) = due.at(k) else {
            return;
        };
        let hops = paths.hops(session);
        add(rows, Near { session, hops });
    }
}

// Whether these are one session.
fn is_of(session: Session, other: Session) -> bool
    ensures { result ≡ eq_by_cmp sessions.cmp session other }
{
    session == other
}

// One previous hop more, if it is of this session.
fn add_lost(hops: &mut Hops, session: Session, lost: &LostHop)
    requires { eq_by_cmp sessions.cmp session lost.now.session ≡ true → size (with_key hops.old lost.now.hop) ≤ 16 }
    ensures { hops.new ≡ cond (eq_by_cmp sessions.cmp session lost.now.session) (with_key hops.old lost.now.hop) hops.old }
{
    if is_of(session, lost.session) {
        hops.add(lost.hop);
    }
}

// The previous hops of a session as they were before paths died.
fn hops_before(paths: &PathTable, lost: &LostHops, session: Session) -> Hops
    requires { size (hops_before paths.now.facts lost.now session) ≤ 16 }
    ensures { result ≡ hops_before paths.now.facts lost.now session }
{
    let mut hops = paths.hops(session);
    let list = lost.as_slice();
    for i in 0..list.len() {
        add_lost(&mut hops, session, &list[i]);
    }
    hops
}

// Whether something of a session changed, as its mark says, or it came due.
fn is_noted(session: Session, mark: bool, fired: &Fired) -> bool
    ensures { result ≡ (mark || has fired.now session) }
{
    mark || fired.has(session)
}

// Adds a session, with its previous hops as they were before paths died, if something of it changed or it came due. The room
// is there.
fn note_one(
    rows: &mut Vec<Near>,
    session: Session,
    mark: bool,
    fired: &Fired,
    paths: &PathTable,
    lost: &LostHops,
)
    requires room { length rows.old.items < vec_capacity rows.old }
    requires near { size (hops_before paths.now.facts lost.now session) ≤ 16 }
    ensures rows { map near_row rows.new.items ≡ cond (mark || has fired.now session) (map near_row rows.old.items
        ++ (session, hops_before paths.now.facts lost.now session) ∷ []) (map near_row rows.old.items) }
    ensures few { length rows.new.items ≤ length rows.old.items + 1 }
    ensures capacity { vec_capacity rows.old ≤ vec_capacity rows.new }
{
    if !is_noted(session, mark, fired) {
        return;
    }
    let hops = hops_before(paths, lost, session);
    add(rows, Near { session, hops });
}

// Whether nothing changed of any session that is watched, and none came due.
fn is_calm(touched: &Touched, fired: &Fired) -> bool
    ensures { result ≡ true → (s : Session) → (is_touched touched.now s || has fired.now s) ≡ false }
{
    if touched.has_any() {
        return false;
    }
    fired.as_slice().is_empty()
}

// Adds each session that is watched and of which something changed, or that came due, with its previous hops as they were
// before paths died. The room is there.
fn note_some(
    rows: &mut Vec<Near>,
    touched: &Touched,
    fired: &Fired,
    paths: &PathTable,
    lost: &LostHops,
)
    requires none { rows.old.items ≡ [] }
    requires room { 64 ≤ vec_capacity rows.old }
    requires near { (s : Session) → size (hops_before paths.now.facts lost.now s) ≤ 16 }
    ensures rows { map near_row rows.new.items ≡ (kept (λ s. is_touched touched.now s || has fired.now s) (changed (noted_before paths.now.facts lost.now) touched.now)).rows }
    ensures few { length rows.new.items ≤ 64 }
    ensures capacity { vec_capacity rows.old ≤ vec_capacity rows.new }
{
    if is_calm(touched, fired) {
        return;
    }
    // The proof sees here that no more are watched.
    let _first = touched.at(0);
    for k in 0..ROOM {
        let Some((session, mark)) = touched.at(k) else {
            return;
        };
        note_one(rows, session, mark, fired, paths, lost);
    }
}

// Adds a row behind the others. The room is there, so this takes no memory.
fn add(rows: &mut Vec<Near>, row: Near)
    requires { length rows.old.items < vec_capacity rows.old }
    ensures rows { rows.new.items ≡ rows.old.items ++ row ∷ [] }
    ensures capacity { vec_capacity rows.old ≤ vec_capacity rows.new }
{
    let _ = rows.push(row);
}
