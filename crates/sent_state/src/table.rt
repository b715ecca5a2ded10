//! The table of lanes.
ghost use Rattle.std.specs.Prelude.{◌≡◌, ◌≤◌, ◌<◌, ◌↔◌, [], false, IsTrue, IfOk, length};
ghost use Rattle.std.specs.Option.{option_copied};
ghost use Rattle.rsvp_base.specs.Rows.{AreRows};
ghost use Rattle.rsvp_base.specs.Table.{empty, get, has, size, without};
ghost use Rattle.sent_state.specs.Lanes.{lane_at, lane_places, sent_row, said_at, told};

use crate::lane::Sent;
use rsvp_base::{Addr, NoMemory, Session, StyleKind};
use soft_table::SoftTable;
use std::alloc::Global;
use std::marker::Model;
use style_rules::Parts;

// 32 sessions have paths, each from at most 16 previous hops; there are three styles.
const ROOM: usize = 1536;

/// What each lane was last sent. Contracts see a finite map from lane (session, style and previous hop: interface and
/// address) to the parts, of the lanes to which there is something. There are at most 1,536.
#[derive(Drop)]
pub struct LaneTable {
    table: SoftTable<Sent>,
    ghost facts: { AreRows lane_places sent_row table.facts },
    ghost few: { length table.facts ≤ 1536 },
    ghost pulled: { table.dead ≡ [] },
    ghost room: { table.room ≡ 1536 },
}

impl Model for LaneTable {
    ghost use Rattle.rsvp_base.specs.Rows.{table_of};
    ghost use Rattle.rsvp_base.specs.Table.{changed};
    ghost use Rattle.sent_state.specs.Lanes.{LaneMap, lane_map_code, lane_places, lanes_in, sent_row, parts_of};

    ghost Value = { LaneMap };

    ghost coded = { lane_map_code };

    ghost view = { λ t. lanes_in (changed parts_of (table_of lane_places sent_row t.table.facts t.facts)) };
}

impl LaneTable {
    /// Nothing was sent. It takes no memory later. `NoMemory`: the room could not be had.
    pub fn open(alloc: Global) -> Result<LaneTable, NoMemory>
        ensures { IfOk result (λ t. t ≡ empty) }
    {
        let table = SoftTable::open(alloc, ROOM)?;
        Ok(LaneTable { table })
    }

    /// How many lanes there are to which there is something, at most 1,536.
    pub fn len(&self) -> usize
        ensures size { result ≡ size self.now }
        ensures few { result ≤ 1536 }
    {
        self.table.len()
    }

    /// The parts that went there last, of which there may be none.
    pub fn said(&self, session: Session, style: StyleKind, hop: (u8, Addr)) -> Parts
        ensures { result ≡ said_at self.now (lane_at (session, (style, hop))) }
    {
        match self.table.find(session, (style, hop)) {
            Some(sent) => sent.parts.copy(),
            None => Parts::new(),
        }
    }

    /// The parts that went there last, in place. `None` exactly where there were none.
    pub fn find(&self, session: Session, style: StyleKind, hop: (u8, Addr)) -> Option<&Parts>
        ensures { option_copied result ≡ get self.now (lane_at (session, (style, hop))) }
    {
        match self.table.find(session, (style, hop)) {
            Some(sent) => Some(&sent.parts),
            None => None,
        }
    }

    /// Whether these parts went there last.
    pub fn is_said(
        &self,
        session: Session,
        style: StyleKind,
        hop: (u8, Addr),
        parts: &Parts,
    ) -> bool
        ensures { IsTrue result ↔ (said_at self.now (lane_at (session, (style, hop))) ≡ parts.now) }
    {
        match self.table.find(session, (style, hop)) {
            Some(sent) => sent.parts.is_same(parts),
            None => parts.is_empty(),
        }
    }

    /// Keeps what goes there now, or forgets the lane where that is nothing. Of a lane to which there was nothing fewer than
    /// 1,536 others are there.
    pub fn tell(&mut self, session: Session, style: StyleKind, hop: (u8, Addr), parts: Parts)
        requires { has self.old (lane_at (session, (style, hop))) ≡ false → size self.old < 1536 }
        ensures { self.new ≡ told self.old (lane_at (session, (style, hop))) parts }
    {
        if parts.is_empty() {
            return self.forget(session, style, hop);
        }
        let sent = Sent {
            session,
            style,
            hop,
            parts,
        };
        let Ok(()) = self.table.put(sent, 1) else {
            unreachable!();
        };
    }

    /// Forgets what went to a lane, if something did.
    pub fn forget(&mut self, session: Session, style: StyleKind, hop: (u8, Addr))
        ensures { self.new ≡ without self.old (lane_at (session, (style, hop))) }
    {
        self.table.remove(session, (style, hop));
    }

    /// Forgets all.
    pub fn clear(&mut self)
        ensures { self.new ≡ empty }
    {
        self.table.clear();
    }
}
