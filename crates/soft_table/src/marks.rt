//! Marks: rows from which a search goes on, so that it passes few rows. They only save steps: no answer depends on which rows
//! are marked, and a mark whose row is gone does not count.
ghost use Rattle.std.specs.Prelude.{◌≤◌, vec_capacity};
ghost use Rattle.soft_table.specs.Ring.{Has};
ghost use Rattle.soft_table.specs.Lists.{AreHeld};

use crate::ring::Ring;
use crate::row_keys::key_of;
use rsvp_base::Session;

/// A row from which a search goes on, and how many rows there are up to the next mark: its stretch.
#[derive(Clone, Copy)]
pub(crate) struct Mark {
    pub(crate) slot: u32,
    rows: u32,
}

// How many rows a stretch has at most.
const LONGEST: u32 = 32;

// Where a longer one is cut in two. Two beside each other that have no more rows than this become one.
const MIDDLE: u32 = 16;

/// How many marks there are at most, for so many slots: two stretches beside each other have more than 16 rows.
pub(crate) fn most(room: usize) -> usize {
    room / 8 + 1
}

// The row in the middle of the stretch of a mark.
fn middle<R: Copy>(slots: &Ring, keys: &[Option<(Session, R)>], mark: u32) -> Option<u32>
    requires { AreHeld keys.now slots.now.slots }
{
    key_of(keys, mark)?;
    let mut at = mark;
    for _step in 0..MIDDLE {
        at = slots.after(at)?;
    }
    Some(at)
}

/// Counts a new row behind so many marks. A stretch that is too long then is cut in two.
pub(crate) fn count_in<R: Copy>(
    marks: &mut Vec<Mark>,
    passed: usize,
    slots: &Ring,
    keys: &[Option<(Session, R)>],
    slot: u32,
)
    requires { AreHeld keys.now slots.now.slots }
    ensures { vec_capacity marks.old ≤ vec_capacity marks.new }
{
    if marks.is_empty() {
        let _ = marks.insert(0, Mark { slot, rows: 1 });
        return;
    }
    let stretch = passed.saturating_sub(1);
    if marks.len() <= stretch {
        return;
    }
    if passed == 0 {
        marks[0].slot = slot;
    }
    let mark = marks[stretch];
    if mark.rows < LONGEST {
        marks[stretch].rows = mark.rows + 1;
        return;
    }
    if most(slots.room()) <= marks.len() {
        return;
    }
    if let Some(slot) = middle(slots, keys, mark.slot) {
        marks[stretch].rows = MIDDLE;
        let _ = marks.insert(
            stretch + 1,
            Mark {
                slot,
                rows: LONGEST + 1 - MIDDLE,
            },
        );
    }
}

// Makes one stretch of two short ones.
fn join(marks: &mut Vec<Mark>, stretch: usize)
    ensures { vec_capacity marks.old ≤ vec_capacity marks.new }
{
    let behind = stretch.saturating_add(1);
    if marks.len() <= behind {
        return;
    }
    let rows = marks[stretch].rows.saturating_add(marks[behind].rows);
    if rows <= MIDDLE {
        marks[stretch].rows = rows;
        marks.remove(behind);
    }
}

/// Takes a row that is gone from those behind so many marks. A mark on it goes to the row behind it.
pub(crate) fn count_out(marks: &mut Vec<Mark>, passed: usize, slot: u32, behind: Option<u32>)
    ensures { vec_capacity marks.old ≤ vec_capacity marks.new }
{
    let stretch = passed.saturating_sub(1);
    if marks.len() <= stretch {
        return;
    }
    let mark = marks[stretch];
    if mark.rows <= 1 {
        marks.remove(stretch);
    } else {
        marks[stretch].rows = mark.rows - 1;
        if let (true, Some(behind)) = (mark.slot == slot, behind) {
            marks[stretch].slot = behind;
        }
        join(marks, stretch);
    }
    join(marks, stretch.saturating_sub(1));
}
