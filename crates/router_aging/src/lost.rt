//! Previous hops from which paths died.
ghost use Rattle.std.specs.Prelude.{◌≡◌, ◌≤◌, ◌<◌, length, map, vec_capacity, IfOk};
ghost use Rattle.std.specs.List.{insert};
ghost use Rattle.rsvp_base.specs.Rows.{AreRows};
ghost use Rattle.rsvp_base.specs.Table.{empty, put_in, size};
ghost use Rattle.router_rules.specs.Facts.{sender_keys};
ghost use Rattle.router_aging.specs.Lost.{lost_row};

use rsvp_base::sorted::search;
use rsvp_base::{Addr, NoMemory, Sender, Session, sorted};
use std::alloc::Global;
use std::marker::Model;

// At most so many paths.
const ROOM: usize = 512;

/// A path that died, and the previous hop from which it came: the interface, and the address of the node behind it.
#[derive(Clone, Copy, Debug, PartialEq, Eq)]
pub struct LostHop {
    pub session: Session,
    pub sender: Sender,
    pub hop: (u8, Addr),
}

impl sorted::Row for LostHop {
    ghost use Rattle.std.specs.Prelude.{ℕ};
    ghost use Rattle.rsvp_base.specs.declared.addr.Addr.{Addr as AddrOf};
    ghost use Rattle.router_aging.specs.Lost.{lost_row};

    type Key = (Session, Sender);

    ghost Rest = { ℕ × AddrOf };

    ghost as_row = { lost_row };

    fn key(&self) -> (Session, Sender) {
        (self.session, self.sender)
    }
}

/// The previous hops of the paths that died in a wait, in order of session and sender: at most 512. Contracts see a finite map
/// from session and sender to the hop.
#[derive(Drop)]
pub struct LostHops {
    rows: Vec<LostHop>,
    ghost rising: { AreRows sender_keys lost_row rows.items },
    ghost few: { length rows.items ≤ 512 },
    ghost room: { 512 ≤ vec_capacity rows },
}

impl Model for LostHops {
    ghost use Rattle.rsvp_base.specs.Rows.{table_of};
    ghost use Rattle.router_rules.specs.Facts.{sender_keys};
    ghost use Rattle.router_aging.specs.Lost.{LostTable, lost_code, lost_row};

    ghost Value = { LostTable };

    ghost coded = { lost_code };

    ghost view = { λ d. table_of sender_keys lost_row d.rows.items d.rising };
}

impl LostHops {
    /// None. It takes no memory later. `NoMemory`: the room could not be had.
    pub fn open(alloc: Global) -> Result<LostHops, NoMemory>
        ensures { IfOk result (λ d. d ≡ empty) }
    {
        let rows = Vec::with_capacity(alloc, ROOM).map_err(|_| NoMemory)?;
        Ok(LostHops { rows })
    }

    /// Those of the paths that died, in order of session and sender.
    pub fn as_slice(&self) -> &[LostHop]
        ensures rows { map lost_row result.now ≡ self.now.rows }
        ensures few { length result.now ≤ 512 }
    {
        self.rows.as_slice()
    }

    // None any more.
    pub(crate) fn clear(&mut self)
        ensures { self.new ≡ empty }
    {
        self.rows.clear();
    }

    // The hop of a path, in place of what is there of its session and sender.
    pub(crate) fn add(&mut self, row: LostHop)
        requires { size (put_in self.old (row.session, row.sender) row.hop) ≤ 512 }
        ensures { self.new ≡ put_in self.old (row.session, row.sender) row.hop }
    {
        match search(self.rows.as_slice(), &(row.session, row.sender)) {
            Ok(at) => self.rows[at] = row,
            Err(at) => insert_row(&mut self.rows, at, row),
        }
    }
}

// Puts a row in its place. The room is there, so this takes no memory.
pub(crate) fn insert_row<R: Copy>(rows: &mut Vec<R>, at: usize, row: R)
    requires within { at ≤ length rows.old.items }
    requires room { length rows.old.items < vec_capacity rows.old }
    ensures rows { rows.new.items ≡ insert rows.old.items at row }
    ensures capacity { vec_capacity rows.old ≤ vec_capacity rows.new }
{
    let _ = rows.insert(at, row);
}
