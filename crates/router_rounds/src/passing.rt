//! Time passes over a node.
ghost use Rattle.std.specs.Prelude.{◌≡◌, ℕ, ◌+◌, ◌*◌, ◌≤◌, fold};
ghost use Rattle.router_rules.specs.Inputs.{Wait};
ghost use Rattle.router_rules.specs.Rule.{facts_after, sent_after};
ghost use Rattle.router_state.specs.State.{IsSaid, IsSettled, facts_of};
ghost use Rattle.router_state.specs.Whole.{state_of};
ghost use Rattle.router_aging.specs.Steps.{AreSound};

use crate::rooms::Rooms;
use crate::rounds::{clear_all, tear_all, tell_all};
use router_aging::{age_all, forget_all, tell_dead, tell_fired, watch_all};
use router_rules::Outbox;
use router_state::Tables;
use sent_state::LaneTable;

/// Lets time pass over a node, in milliseconds, at most half a period (RFC 2205, 3.7). What is not refreshed dies: its senders
/// are torn, its names are forgotten, and the previous hops are told what changed. Sessions that come due are refreshed, and
/// their countdowns begin again as the word says (RFC 2209, 2: PATH REFRESH and RESV REFRESH); where nothing of such a session
/// died, what its lanes were told last is told again.
pub fn pass_time<O: Outbox>(
    tables: &mut Tables,
    said: &mut LaneTable,
    rooms: &mut Rooms,
    ms: u32,
    word: u32,
    out: &mut O,
)
    requires sound { AreSound tables.old }
    requires settled { IsSettled (state_of tables.old said.old) }
    requires said { IsSaid said.old (state_of tables.old said.old) }
    requires short { ms ≤ 2 * tables.old.config.quarter }
    ensures facts { (c : ℕ) → facts_of (c + ms) (state_of tables.new said.new) ≡ facts_after tables.old.config tables.old.config (c + ms) (Wait ms word) (facts_of c (state_of tables.old said.old)) }
    ensures sent { (c : ℕ) → out.new ≡ fold O.posted out.old (sent_after tables.old.config tables.old.config (c + ms) (Wait ms word) (facts_of c (state_of tables.old said.old))) }
    ensures said { IsSaid said.new (state_of tables.new said.new) }
    ensures settled { IsSettled (state_of tables.new said.new) }
    ensures sound { AreSound tables.new }
    ensures place { tables.new.config ≡ tables.old.config }
    ensures ifaces { tables.new.book.ifaces ≡ tables.old.book.ifaces }
{
    let mut touched = watch_all(&tables.due);
    tables.paths.limits();
    let fired = age_all(
        tables,
        ms,
        word,
        &mut rooms.dead,
        &mut rooms.lost,
        &mut touched,
    );
    rooms
        .nears
        .note_touched(&touched, &fired, &tables.paths, &rooms.lost);
    forget_all(tables, &rooms.dead);
    let due = fired.as_slice();
    tell_dead(&tables.config, &tables.senders, &rooms.dead, out);
    tear_all(tables, said, &rooms.nears, due, &touched, out);
    tell_fired(&tables.config, &tables.senders, &tables.paths, &fired, out);
    clear_all(tables, said, &rooms.nears, due, &touched);
    tell_all(tables, said, &rooms.nears, due, &touched, out);
}
