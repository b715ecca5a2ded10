//! Rows in the order of their interfaces and keys: found by binary search, changed in place.
ghost use Rattle.std.specs.Prelude.{◌≡◌, ◌<◌, ◌≤◌, length, IsSome, IsErr, IfOk, OnErr, slice_get, slice_index_or, vec_len, vec_capacity};
ghost use Rattle.std.specs.Result.{ForOk, ForErr};
ghost use Rattle.rsvp_base.specs.Keys.{numbers};
ghost use Rattle.rsvp_base.specs.Rows.{HasRowAt, LacksRowAt};
ghost use Rattle.rsvp_base.specs.Under.{rows_under};
ghost use Rattle.admission_book.specs.EntryKeys.{places};
ghost use Rattle.rsvp_base.specs.Orders.{entry_keys};
ghost use Rattle.admission_book.specs.Book.{changed_at};
ghost use Rattle.admission_book.specs.Rows.{IsRising, as_entry, as_entries, entries_of, own};

use crate::row::Row;
use rsvp_base::{EntryKey, Flow};

pub(crate) fn charge_at(rows: &[Row], place: Result<usize, usize>) -> u64
    requires { ForOk place (λ at. at < length rows.now) }
    ensures row { IfOk place (λ at. (d : Row) → result ≡ (slice_index_or rows.now at d).flow.r) }
    ensures none { OnErr place (result ≡ 0) }
{
    match place {
        Ok(at) => {
            let flow = rows[at].flow;
            flow.r.value()
        }
        Err(_) => 0,
    }
}

pub(crate) fn change(
    rows: &mut Vec<Row>,
    place: Result<usize, usize>,
    iface: u8,
    key: EntryKey,
    now: Option<Flow>,
)
    requires there { ForOk place (HasRowAt places as_entry rows.old.items (iface, key)) }
    requires absent { ForErr place (LacksRowAt places as_entry rows.old.items (iface, key)) }
    requires room { IsErr place → IsSome now → vec_len rows.old < 3072 }
    requires few { vec_len rows.old ≤ 3072 }
    requires capacity { 3072 ≤ vec_capacity rows.old }
    ensures rows { (up : IsRising rows.old.items) → as_entries rows.new.items ≡ (changed_at (entries_of rows.old.items up) iface key now).rows }
    ensures few { vec_len rows.new ≤ 3072 }
    ensures capacity { 3072 ≤ vec_capacity rows.new }
{
    match (place, now) {
        (Ok(at), Some(flow)) => rows[at] = Row { iface, key, flow },
        (Ok(at), None) => {
            rows.remove(at);
        }
        (Err(at), Some(flow)) => {
            // The room is there, so this takes no memory.
            let _ = rows.insert(at, Row { iface, key, flow });
        }
        (Err(_), None) => {}
    }
}

fn own(row: &Row, iface: u8) -> Option<(EntryKey, Flow)>
    ensures { result ≡ own iface row.now }
{
    if row.iface == iface {
        Some((row.key, row.flow))
    } else {
        None
    }
}

pub(crate) fn nth(rows: &[Row], iface: u8, k: usize) -> Option<(EntryKey, Flow)>
    requires { IsRising rows.now }
    ensures { result ≡ slice_get (rows_under numbers entry_keys iface (as_entries rows.now)) k }
{
    let start = rows.partition_point(|row| row.iface < iface);
    match rows[start..].get(k) {
        Some(row) => own(row, iface),
        None => None,
    }
}
