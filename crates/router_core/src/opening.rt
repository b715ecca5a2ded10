//! A router's tables are opened.
ghost use Rattle.std.specs.Prelude.{◌≡◌, IfOk};
ghost use Rattle.rsvp_base.specs.Table.{empty};
ghost use Rattle.router_state.specs.State.{no_state};
ghost use Rattle.router_state.specs.Whole.{IsOfPlace, state_of};
ghost use Rattle.router_rounds.specs.Steps.{AreSound};

use blockade_state::Blockades;
use local_state::{Countdowns, LocalSenders, LocalWants};
use path_state::PathTable;
use resv_state::ResvTable;
use router_state::{Config, Tables};
use rsvp_base::NoMemory;
use std::alloc::Global;
use style_rules::{Fixed, Shared, Wild};

/// A router's tables without facts. They take no memory later. `NoMemory`: the room could not be had.
pub(crate) fn open_tables(alloc: Global, config: Config) -> Result<Tables, NoMemory>
    ensures state { IfOk result (λ t. state_of t empty ≡ no_state config) }
    ensures sound { IfOk result AreSound }
    ensures place { IfOk result IsOfPlace }
{
    // The proof sees here that the interfaces are few.
    let _ifaces = config.ifaces();
    let (senders, wants, due) = open_local(alloc)?;
    let (wild, fixed, shared) = open_resvs(alloc)?;
    let paths = PathTable::open(alloc)?;
    let walls = Blockades::open(alloc)?;
    let book = config.open_book(alloc)?;
    Ok(Tables {
        config,
        senders,
        wants,
        paths,
        wild,
        fixed,
        shared,
        walls,
        due,
        book,
    })
}

// Local senders and wants, and countdowns: none.
fn open_local(alloc: Global) -> Result<(LocalSenders, LocalWants, Countdowns), NoMemory>
    ensures { IfOk result (λ t. (t.0 ≡ record { tspecs = empty; advertised = empty }) × (t.1 ≡ empty) × (t.2 ≡ empty)) }
{
    let senders = LocalSenders::open(alloc)?;
    let wants = LocalWants::open(alloc)?;
    let due = Countdowns::open(alloc)?;
    Ok((senders, wants, due))
}

// Reservations of each style: none.
fn open_resvs(
    alloc: Global,
) -> Result<(ResvTable<Wild>, ResvTable<Fixed>, ResvTable<Shared>), NoMemory>
    ensures { IfOk result (λ t. (t.0 ≡ record { facts = empty; dead = empty }) × (t.1 ≡ record { facts = empty; dead = empty }) × (t.2 ≡ record { facts = empty; dead = empty })) }
{
    let wild = ResvTable::open(alloc)?;
    let fixed = ResvTable::open(alloc)?;
    let shared = ResvTable::open(alloc)?;
    Ok((wild, fixed, shared))
}
