//! The map of blockades.
ghost use Rattle.std.specs.Prelude.{◌≡◌, ◌≤◌, ◌<◌, ◌-◌, ℕ, ◌↔◌, [], length, IsErr, IfOk, OnOk, OnErr};
ghost use Rattle.std.specs.Option.{option_map};
ghost use Rattle.rsvp_base.specs.Rows.{AreRows};
ghost use Rattle.rsvp_base.specs.Table.{empty, get, put_in, size, changed};
ghost use Rattle.style_rules.specs.Targets.{wall_keys, targets};
ghost use Rattle.soft_table.specs.Facts.{IsInOrder};
ghost use Rattle.blockade_state.specs.Blockades.{WallMap, wall_key, fact_row, later};
ghost use Rattle.blockade_state.specs.Touched.{dying, sessions_of, touched_by};

use crate::fact::Kept;
use crate::touched::Touched;
use rsvp_base::{Full, NoMemory, Session};
use soft_table::SoftTable;
use std::alloc::Global;
use std::marker::Model;
use style_rules::{Target, Wall};

// At most so many blockades.
const ROOM: usize = 512;

/// The blockades of a node, one for a session and target. Contracts see a finite map from session and target to the wall
/// and the milliseconds that are left of it. There are at most 512.
#[derive(Drop)]
pub struct Blockades {
    table: SoftTable<Kept>,
    ghost facts: { AreRows wall_keys fact_row table.facts },
    ghost few: { length table.facts ≤ 512 },
    ghost pulled: { table.dead ≡ [] },
    ghost room: { table.room ≡ 512 },
}

impl Model for Blockades {
    ghost use Rattle.rsvp_base.specs.Rows.{table_of};
    ghost use Rattle.rsvp_base.specs.Table.{changed};
    ghost use Rattle.style_rules.specs.Targets.{wall_keys};
    ghost use Rattle.blockade_state.specs.Blockades.{WallMap, wall_map_code, fact_row, wall_of};

    ghost Value = { WallMap };

    ghost coded = { wall_map_code };

    ghost view = { λ t. changed wall_of (table_of wall_keys fact_row t.table.facts t.facts) };
}

impl Blockades {
    /// A map without blockades. It takes no memory later. `NoMemory`: its room could not be had.
    pub fn open(alloc: Global) -> Result<Blockades, NoMemory>
        ensures { IfOk result (λ t. t ≡ empty) }
    {
        let table = SoftTable::open(alloc, ROOM)?;
        Ok(Blockades { table })
    }

    /// Sets the wall of a session toward a target, with this much left, in milliseconds, in place of the one that stands
    /// there. `Full` exactly where this would be a 513th; nothing changes then.
    pub fn set(
        &mut self,
        session: Session,
        target: Target,
        wall: Wall,
        left: u32,
    ) -> Result<(), Full>
        requires { 1 ≤ left }
        ensures ok { OnOk result (self.new ≡ put_in self.old (session, target) (wall, left)) }
        ensures full { IsErr result ↔ (512 < size (put_in self.old (session, target) (wall, left))) }
        ensures err { OnErr result (self.new ≡ self.old) }
    {
        let fact = Kept {
            session,
            target,
            wall,
        };
        self.table.put(fact, left)
    }

    /// The wall of a session toward a target. `None` exactly where none stands there.
    pub fn of(&self, session: Session, target: Target) -> Option<Wall>
        ensures wall { result ≡ option_map (λ e. e.0) (get self.now (session, target)) }
        // What holds of every map.
        ensures few { size self.now ≤ 512 }
    {
        match self.table.find(session, target) {
            Some(fact) => Some(fact.wall),
            None => None,
        }
    }

    /// How many more there is room for.
    pub fn free(&self) -> usize
        ensures { result ≡ 512 - size self.now }
    {
        ROOM - self.table.len()
    }

    /// Lets time pass, in milliseconds. The blockades with at most so much left are gone then; the others have so much
    /// less left.
    pub fn advance(&mut self, ms: u32)
        ensures { self.new ≡ changed (later ms) self.old }
    {
        self.table.advance(ms);
        pull_all(&mut self.table);
    }

    /// Lets time pass as `advance` does, and says of which sessions blockades died.
    pub fn age(&mut self, ms: u32, touched: &mut Touched)
        ensures facts { self.new ≡ changed (later ms) self.old }
        ensures touched { touched.new ≡ touched_by (dying ms self.old) touched.old }
    {
        self.table.advance(ms);
        pull_touching(&mut self.table, touched);
    }

    /// Takes all blockades out.
    pub fn clear(&mut self)
        ensures { self.new ≡ empty }
    {
        self.table.clear();
    }
}

// Takes the dead out, all of them.
fn pull_all(table: &mut SoftTable<Kept>)
    ensures facts { table.new.facts ≡ table.old.facts }
    ensures dead { table.new.dead ≡ [] }
    ensures room { table.new.room ≡ table.old.room }
    ensures order { IsInOrder targets wall_key table.new }
{
    while table.pull_dead().is_some() {}
}

// Takes the dead out, all of them, and says of which sessions they were.
fn pull_touching(table: &mut SoftTable<Kept>, touched: &mut Touched)
    ensures facts { table.new.facts ≡ table.old.facts }
    ensures dead { table.new.dead ≡ [] }
    ensures room { table.new.room ≡ table.old.room }
    ensures order { IsInOrder targets wall_key table.new }
    ensures touched { touched.new ≡ touched_by (sessions_of table.old.dead) touched.old }
{
    while let Some(kept) = table.pull_dead() {
        touched.touch(kept.session);
    }
}
