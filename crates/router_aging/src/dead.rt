//! Paths die.
ghost use Rattle.std.specs.Prelude.{◌≡◌, ◌≤◌, ◌<◌, [], length, map, vec_capacity, IfOk};
ghost use Rattle.std.specs.List.{insert};
ghost use Rattle.rsvp_base.specs.Rows.{AreRows};
ghost use Rattle.rsvp_base.specs.Sets.{with_key};
ghost use Rattle.rsvp_base.specs.Table.{changed, empty, keys, size};
ghost use Rattle.router_rules.specs.Facts.{sender_keys};
ghost use Rattle.path_state.specs.Paths.{later};
ghost use Rattle.blockade_state.specs.Touched.{touched_by};
ghost use Rattle.router_aging.specs.Lost.{came_from, left_from, lost_hops, lost_row};
ghost use Rattle.router_aging.specs.Passing.{dead_key, dead_row, dying_paths, sessions_at};

use crate::lost::{LostHop, LostHops, insert_row};
use blockade_state::Touched;
use path_state::{PathFact, PathTable};
use rsvp_base::sorted::search;
use rsvp_base::{NoMemory, Sender, Session, sorted};
use std::alloc::Global;
use std::marker::Model;

// At most so many paths.
const ROOM: usize = 512;

/// The session and the sender of a path that died.
#[derive(Clone, Copy, Debug, PartialEq, Eq)]
pub struct DeadPath {
    pub session: Session,
    pub sender: Sender,
}

impl sorted::Row for DeadPath {
    ghost use Rattle.router_aging.specs.Passing.{dead_row};

    type Key = (Session, Sender);

    ghost Rest = { Unit {0} };

    ghost as_row = { dead_row };

    fn key(&self) -> (Session, Sender) {
        (self.session, self.sender)
    }
}

/// The paths that died in a wait, in order of session and sender: at most 512. Contracts see the set of their keys.
#[derive(Drop)]
pub struct DeadPaths {
    rows: Vec<DeadPath>,
    ghost rising: { AreRows sender_keys dead_row rows.items },
    ghost few: { length rows.items ≤ 512 },
    ghost room: { 512 ≤ vec_capacity rows },
}

impl Model for DeadPaths {
    ghost use Rattle.rsvp_base.specs.Rows.{table_of};
    ghost use Rattle.router_rules.specs.Facts.{sender_keys};
    ghost use Rattle.router_aging.specs.Passing.{DeadSet, dead_code, dead_row};

    ghost Value = { DeadSet };

    ghost coded = { dead_code };

    ghost view = { λ d. table_of sender_keys dead_row d.rows.items d.rising };
}

impl DeadPaths {
    /// None. It takes no memory later. `NoMemory`: the room could not be had.
    pub fn open(alloc: Global) -> Result<DeadPaths, NoMemory>
        ensures { IfOk result (λ d. d ≡ empty) }
    {
        let rows = Vec::with_capacity(alloc, ROOM).map_err(|_| NoMemory)?;
        Ok(DeadPaths { rows })
    }

    /// Those that died, in order of session and sender.
    pub fn as_slice(&self) -> &[DeadPath]
        ensures keys { map dead_key result.now ≡ keys self.now }
        ensures few { length result.now ≤ 512 }
    {
        self.rows.as_slice()
    }

    // None any more.
    fn clear(&mut self)
        ensures { self.new ≡ empty }
    {
        self.rows.clear();
    }

    // One more.
    fn add(&mut self, session: Session, sender: Sender)
        requires { size (with_key self.old (session, sender)) ≤ 512 }
        ensures { self.new ≡ with_key self.old (session, sender) }
    {
        if let Err(at) = search(self.rows.as_slice(), &(session, sender)) {
            insert_row(&mut self.rows, at, DeadPath { session, sender });
        }
    }
}

/// Lets time pass over the paths, in milliseconds. Those with at most so much left are gone then, and are told in `dead`;
/// the others have so much less left. Where they came from is told in `lost`, and their sessions are touched. No dead path may
/// wait from before, and none waits then.
pub fn age_paths(
    paths: &mut PathTable,
    ms: u32,
    dead: &mut DeadPaths,
    lost: &mut LostHops,
    touched: &mut Touched,
)
    requires { paths.old.dead.rows ≡ [] }
    ensures paths { paths.new ≡ record { facts = changed (later ms) paths.old.facts; dead = empty } }
    ensures dead { dead.new ≡ dying_paths ms paths.old.facts }
    ensures lost { lost.new ≡ lost_hops ms paths.old.facts }
    ensures touched { touched.new ≡ touched_by (sessions_at dead.new) touched.old }
{
    paths.limits();
    paths.advance(ms);
    pull_all(paths, dead, lost, touched);
}

// Where a path that died came from.
fn lost_of(fact: &PathFact) -> LostHop
    ensures { lost_row result ≡ ((fact.now.session, fact.now.sender), came_from fact.now) }
{
    LostHop {
        session: fact.session,
        sender: fact.sender,
        hop: (fact.iface, fact.hop.addr),
    }
}

// Takes the dead paths out, all of them.
fn pull_all(paths: &mut PathTable, dead: &mut DeadPaths, lost: &mut LostHops, touched: &mut Touched)
    requires { size paths.old.dead ≤ 512 }
    ensures paths { paths.new ≡ record { facts = paths.old.facts; dead = empty } }
    ensures dead { keys dead.new ≡ keys paths.old.dead }
    ensures lost { lost.new ≡ changed left_from paths.old.dead }
    ensures touched { touched.new ≡ touched_by (sessions_at paths.old.dead) touched.old }
{
    dead.clear();
    lost.clear();
    while let Some(fact) = paths.pull_dead() {
        dead.add(fact.session, fact.sender);
        lost.add(lost_of(&fact));
        touched.touch(fact.session);
    }
}
