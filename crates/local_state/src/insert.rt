//! Rows put into room that was taken before.
ghost use Rattle.std.specs.Prelude.{◌≡◌, ◌≤◌, ◌<◌, length, vec_capacity};
ghost use Rattle.std.specs.List.{insert};

// Puts a row in its place. The room is there, so this takes no memory.
pub(crate) fn insert_row<R: Drop>(rows: &mut Vec<R>, at: usize, row: R)
    requires within { at ≤ length rows.old.items }
    requires room { length rows.old.items < vec_capacity rows.old }
    ensures rows { rows.new.items ≡ insert rows.old.items at row }
    ensures capacity { vec_capacity rows.old ≤ vec_capacity rows.new }
{
    let _ = rows.insert(at, row);
}
