//! When the refreshes of sessions come due.
ghost use Rattle.std.specs.Prelude.{◌≡◌, ◌≤◌, ◌<◌, ◌*◌, ◌++◌, [], false, map, length, vec_capacity, IfOk, slice_get};
ghost use Rattle.std.specs.List.{cons_option};
ghost use Rattle.rsvp_base.specs.Orders.{sessions};
ghost use Rattle.rsvp_base.specs.Rows.{AreRows, table_of};
ghost use Rattle.rsvp_base.specs.Table.{empty, get, has, put_in, size, without, changed};
ghost use Rattle.local_state.specs.Rows.{count_row, session_row};
ghost use Rattle.local_state.specs.Counting.{started, ticked_row, later_due, is_fired, fired_row};

use crate::fired::Fired;
use crate::insert::insert_row;
use arrayvec::ArrayVec;
use rsvp_base::sorted::search;
use rsvp_base::{NoMemory, Session, sorted};
use std::alloc::Global;
use std::marker::Model;

// At most so many sessions: 32 with local senders, and 32 with paths.
const ROOM: usize = 64;

/// What is left until the next refresh of a session, in milliseconds.
#[derive(Clone, Copy, Debug, PartialEq, Eq)]
pub struct Countdown {
    pub session: Session,
    pub left: u32,
}

impl sorted::Row for Countdown {
    ghost use Rattle.std.specs.Prelude.{ℕ};
    ghost use Rattle.local_state.specs.Rows.{count_row};

    type Key = Session;

    ghost Rest = { ℕ };

    ghost as_row = { count_row };

    fn key(&self) -> Session {
        self.session
    }
}

/// The countdowns of sessions, at most 64. Contracts see a finite map from session to the milliseconds that are left.
#[derive(Drop)]
pub struct Countdowns {
    rows: Vec<Countdown>,
    ghost rising: { AreRows sessions count_row rows.items },
    ghost few: { length rows.items ≤ 64 },
    ghost room: { 64 ≤ vec_capacity rows },
}

impl Model for Countdowns {
    ghost use Rattle.std.specs.Prelude.{ℕ};
    ghost use Rattle.rsvp_base.specs.Orders.{sessions};
    ghost use Rattle.rsvp_base.specs.Rows.{table_of};
    ghost use Rattle.rsvp_base.specs.Table.{Table};
    ghost use Rattle.local_state.specs.Rows.{count_row, due_code};

    ghost Value = { Table sessions ℕ };

    ghost coded = { due_code };

    ghost view = { λ t. table_of sessions count_row t.rows.items t.rising };
}

impl Countdowns {
    /// No countdown. It takes no memory later. `NoMemory`: the room could not be had.
    pub fn open(alloc: Global) -> Result<Countdowns, NoMemory>
        ensures { IfOk result (λ t. t ≡ empty) }
    {
        let rows = Vec::with_capacity(alloc, ROOM)?;
        Ok(Countdowns { rows })
    }

    /// How many there are, at most 64.
    pub fn len(&self) -> usize
        ensures size { result ≡ size self.now }
        ensures few { result ≤ 64 }
    {
        self.rows.len()
    }

    /// The k-th by session with what is left, in milliseconds, from 0. `None` exactly where k is not below the length.
    pub fn at(&self, k: usize) -> Option<(Session, u32)>
        ensures { result ≡ slice_get self.now.rows k }
    {
        let row = self.rows.as_slice().get(k)?;
        Some((row.session, row.left))
    }

    /// Whether a session has one.
    pub fn has(&self, session: Session) -> bool
        ensures { result ≡ has self.now session }
    {
        search(self.rows.as_slice(), &session).is_ok()
    }

    /// Starts that of a session, with this much left, in milliseconds, where it has none: then fewer than 64 are there. One
    /// that runs goes on as it was.
    pub fn begin(&mut self, session: Session, left: u32)
        requires { has self.old session ≡ false → size self.old < 64 }
        ensures { self.new ≡ started (has self.old session) session left self.old }
    {
        if let Err(at) = search(self.rows.as_slice(), &session) {
            insert_row(&mut self.rows, at, Countdown { session, left });
        }
    }

    /// Stops that of a session, if it has one.
    pub fn stop(&mut self, session: Session)
        ensures { self.new ≡ without self.old session }
    {
        if let Ok(at) = search(self.rows.as_slice(), &session) {
            self.rows.remove(at);
        }
    }

    /// Lets time pass, in milliseconds, at most half of a refresh period of four times `quarter`, and answers whose countdowns
    /// came due. Such a one begins again at the moment at which it was due, with half a period and up to one more, as the word
    /// says; the others have so much less left (RFC 2205, 3.7).
    pub fn tick(&mut self, quarter: u32, ms: u32, word: u32) -> Fired
        requires period { quarter ≤ 15000 }
        requires short { ms ≤ 2 * quarter }
        ensures left { self.new ≡ changed (later_due quarter ms word) self.old }
        ensures fired { result ≡ changed (is_fired ms) self.old }
    {
        let fired = fired_of(self.rows.as_slice(), ms);
        tick_all(&mut self.rows, quarter, ms, word);
        fired
    }

    /// Stops all.
    pub fn clear(&mut self)
        ensures { self.new ≡ empty }
    {
        self.rows.clear();
    }
}

// A countdown after some time.
fn tick_row(row: Countdown, quarter: u32, ms: u32, word: u32) -> Countdown
    requires period { quarter ≤ 15000 }
    requires short { ms ≤ 2 * quarter }
    ensures { result ≡ ticked_row quarter ms word row }
{
    let left = if row.left <= ms {
        row.left + 2 * quarter + word % (4 * quarter + 1) - ms
    } else {
        row.left - ms
    };
    Countdown {
        session: row.session,
        left,
    }
}

// All countdowns after some time.
fn tick_all(rows: &mut Vec<Countdown>, quarter: u32, ms: u32, word: u32)
    requires period { quarter ≤ 15000 }
    requires short { ms ≤ 2 * quarter }
    ensures rows { rows.new.items ≡ map (ticked_row quarter ms word) rows.old.items }
    ensures capacity { vec_capacity rows.new ≡ vec_capacity rows.old }
{
    for i in 0..rows.len() {
        let row = rows[i];
        rows[i] = tick_row(row, quarter, ms, word);
    }
}

// The sessions whose countdowns come due.
fn fired_of(rows: &[Countdown], ms: u32) -> Fired
    requires rising { AreRows sessions count_row rows.now }
    requires few { length rows.now ≤ 64 }
    ensures { (up : AreRows sessions count_row rows.now) → result ≡ changed (is_fired ms) (table_of sessions count_row rows.now up) }
{
    let mut list = ArrayVec::new();
    for i in 0..rows.len() {
        add_due(&mut list, &rows[i], ms);
    }
    Fired::of(list)
}

// One session more, if its countdown comes due.
fn add_due(list: &mut ArrayVec<Session, 64>, row: &Countdown, ms: u32)
    requires { length list.old.items < 64 }
    ensures { map session_row list.new.items ≡ map session_row list.old.items ++ cons_option (fired_row ms row.now) [] }
{
    if row.left <= ms {
        list.push(row.session);
    }
}
