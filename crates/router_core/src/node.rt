//! The node.
ghost use Rattle.std.specs.Prelude.{◌≡◌, ℕ, IfOk};
ghost use Rattle.std.specs.Option.{option_map};
ghost use Rattle.rsvp_base.specs.Table.{get};
ghost use Rattle.router_rules.specs.Books.{book};
ghost use Rattle.router_state.specs.State.{IsSaid, IsSettled, State, facts_of, no_state};
ghost use Rattle.router_state.specs.Whole.{IsOfPlace, state_of};
ghost use Rattle.router_rounds.specs.Steps.{AreSound};

use crate::opening::open_tables;
use router_arrivals::Answer;
use router_rounds::Rooms;
use router_state::{Config, Tables};
use rsvp_base::{EntryKey, Flow, NoMemory};
use sent_state::LaneTable;
use std::alloc::Global;
use std::marker::Model;

/// A router. Contracts see its state: what it keeps, each with the milliseconds that are left, where the
/// router stands, and what each lane was told last. What was told is what goes there; the book is that of the facts.
#[derive(Drop)]
pub struct Node {
    pub(crate) tables: Tables,
    pub(crate) said: LaneTable,
    pub(crate) rooms: Rooms,
    // What came of the last Resv: the room is kept, and nothing is read from before.
    pub(crate) answer: Answer,
    ghost sound: { AreSound tables },
    ghost settled: { IsSettled (state_of tables said) },
    ghost told: { IsSaid said (state_of tables said) },
    ghost place: { IsOfPlace tables },
}

impl Model for Node {
    ghost use Rattle.router_state.specs.State.{State};
    ghost use Rattle.router_state.specs.Whole.{state_of};

    ghost Value = { State };

    ghost view = { λ n. state_of n.tables n.said };
}

impl Node {
    /// A router without facts. It takes no memory later. `NoMemory`: the room could not be had.
    pub fn open(alloc: Global, config: Config) -> Result<Node, NoMemory>
        ensures { IfOk result (λ n. n ≡ no_state config) }
    {
        let tables = open_tables(alloc, config)?;
        let said = LaneTable::open(alloc)?;
        let rooms = Rooms::open(alloc)?;
        Ok(Node {
            tables,
            said,
            rooms,
            answer: Answer::new(),
        })
    }

    /// Where it stands.
    pub fn config(&self) -> &Config
        ensures { result.now ≡ self.now.place }
    {
        &self.tables.config
    }

    /// The flow of an entry of an interface's book (RFC 2209, 1: a TCSB). `None` exactly where there is no such entry.
    pub fn entry(&self, iface: u8, key: &EntryKey) -> Option<Flow>
        ensures { (c : ℕ) → result ≡ option_map (λ part. part.flow) (get (book (facts_of c self.now) iface) key.now) }
    {
        self.tables.book.entry(iface, key)
    }
}
