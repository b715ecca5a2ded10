//! Countdowns: which sessions are watched in a wait, which countdowns stop after it, and which begin in a node that was
//! cleared.
ghost use Rattle.std.specs.Prelude.{◌≡◌, ◌≤◌, ◌||◌, true, false, cond, length, map, take};
ghost use Rattle.std.specs.List.{list_any};
ghost use Rattle.std.specs.Ordering.{eq_by_cmp};
ghost use Rattle.rsvp_base.specs.Orders.{sessions};
ghost use Rattle.rsvp_base.specs.Table.{changed, empty, get, has, kept, put_in, size, without};
ghost use Rattle.rsvp_base.specs.declared.session.Session.{Session};
ghost use Rattle.router_aging.specs.Passing.{all_begun, counts, sessions_at, unmarked};

use crate::dead::{DeadPath, DeadPaths};
use blockade_state::Touched;
use local_state::{Countdowns, LocalSenders};
use path_state::PathTable;
use rsvp_base::Session;

/// Watches all sessions that have a countdown; nothing of them changed yet.
pub fn watch_all(due: &Countdowns) -> Touched
    ensures { result ≡ changed unmarked due.now }
{
    let mut touched = Touched::new();
    for k in 0..due.len() {
        let Some((session, _)) = due.at(k) else {
            return touched;
        };
        touched.watch(session);
    }
    touched
}

/// Whether a session has a local sender or a path.
pub fn is_counted(senders: &LocalSenders, paths: &PathTable, session: Session) -> bool
    ensures { result ≡ counts senders.now.tspecs paths.now.facts session }
{
    if senders.of(session).is_empty() {
        return paths.has_session(session);
    }
    true
}

/// Stops the countdown of a session, unless it stays.
pub fn stop_unless(due: &mut Countdowns, stays: bool, session: Session)
    ensures { due.new ≡ cond stays due.old (without due.old session) }
{
    if !stays {
        due.stop(session);
    }
}

// Whether these are one session.
fn is_of(session: Session, other: Session) -> bool
    ensures { result ≡ eq_by_cmp sessions.cmp session other }
{
    session == other
}

// Whether the dead path before this one is of this session too. They stand in order of session, so those of one are a run.
fn is_again(dead: &[DeadPath], i: usize, session: Session) -> bool
    requires { i ≤ length dead.now }
    ensures { result ≡ true → list_any (eq_by_cmp sessions.cmp session) (take i (map (λ (d : DeadPath). d.session) dead.now)) ≡ true }
{
    if i == 0 {
        return false;
    }
    is_of(session, dead[i - 1].session)
}

// Stops the countdown of a session that has neither a local sender nor a path, unless it was looked at just before.
fn stop_one(
    due: &mut Countdowns,
    senders: &LocalSenders,
    paths: &PathTable,
    again: bool,
    session: Session,
)
    ensures { due.new ≡ cond (again || counts senders.now.tspecs paths.now.facts session) due.old (without due.old session) }
{
    if !again {
        stop_unless(due, is_counted(senders, paths, session), session);
    }
}

/// Stops the countdowns of the sessions that have neither a local sender nor a path. Only a session of which a path died can
/// have lost the last of them, so no other is looked at.
pub fn stop_uncounted(
    due: &mut Countdowns,
    senders: &LocalSenders,
    paths: &PathTable,
    dead: &DeadPaths,
)
    requires { (s : Session) → has due.old s ≡ true → list_any (eq_by_cmp sessions.cmp s) (sessions_at dead.now) ≡ false → counts senders.now.tspecs paths.now.facts s ≡ true }
    ensures { due.new ≡ kept (counts senders.now.tspecs paths.now.facts) due.old }
{
    let list = dead.as_slice();
    for i in 0..list.len() {
        let session = list[i].session;
        stop_one(due, senders, paths, is_again(list, i, session), session);
    }
}

/// Begins a countdown of a whole period for each session that has a local sender, where there is none.
pub fn begin_all(due: &mut Countdowns, senders: &LocalSenders, period: u32)
    requires { due.old ≡ empty }
    ensures { due.new ≡ all_begun period senders.now.tspecs }
{
    senders.limits();
    let list = senders.as_slice();
    for i in 0..list.len() {
        due.begin(list[i].session, period);
    }
}
