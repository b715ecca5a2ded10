//! The demand of an end.
ghost use Rattle.std.specs.Prelude.{◌≡◌, ◌↔◌, ◌≤◌, map, sum_by, IfOk, IfErr, IsTrue, OnOk, OnErr, Some};
ghost use Rattle.std.specs.List.{All};
ghost use Rattle.std.specs.Result.{ForOk, ForErr};
ghost use Rattle.std.specs.FinMap.Entries.{find, put};
ghost use Rattle.rsvp_base.specs.declared.part.Part.{Part};
ghost use Rattle.rsvp_base.specs.Rows.{HasRowAt, LacksRowAt};
ghost use Rattle.rsvp_base.specs.Sets.{union};
ghost use Rattle.rsvp_base.specs.Table.{size};
ghost use Rattle.rsvp_base.specs.Orders.{entry_keys};
ghost use Rattle.style_rules.specs.Parts.{part_charge};
ghost use Rattle.network_demand.specs.Books.{book_row, joined_with, AreInOrder};

use rsvp_base::{EntryKey, Iface, NoMemory, Part};
use std::alloc::Global;
use std::cmp::Ordering;
use std::marker::Model;
use style_rules::{Style, charge};

/// What an end owes, by session, style and unit. Contracts see the table of it.
#[derive(Drop)]
pub struct EndBook {
    rows: Vec<(EntryKey, Part)>,
    ghost in_order: { AreInOrder rows.items },
}

impl Model for EndBook {
    ghost use Rattle.rsvp_base.specs.Rows.{table_of};
    ghost use Rattle.style_rules.specs.Lines.{BookTable};
    ghost use Rattle.rsvp_base.specs.Orders.{entry_keys};
    ghost use Rattle.network_demand.specs.Books.{book_code, book_row};

    ghost Value = { BookTable };

    ghost coded = { book_code };

    ghost view = { λ b. table_of entry_keys book_row b.rows.items b.in_order };
}

impl EndBook {
    ghost use Rattle.rsvp_base.specs.Table.{empty, get};
    ghost use Rattle.network_demand.specs.Books.{charged};
    ghost use Rattle.network_demand.specs.Fits.{IsCarried};

    /// Nothing.
    pub fn new(alloc: Global) -> EndBook
        ensures { result ≡ empty }
    {
        EndBook {
            rows: Vec::new(alloc),
        }
    }

    /// The entries, by session, style and unit.
    pub fn as_slice(&self) -> &[(EntryKey, Part)]
        ensures { result.now ≡ self.now.rows }
    {
        self.rows.as_slice()
    }

    /// One part more of an entry. `NoMemory`: there was no room for it; nothing changes then.
    pub(crate) fn charge<S: Style>(&mut self, key: EntryKey, part: &Part) -> Result<(), NoMemory>
        requires { (q : Part) → get self.old key ≡ Some q → size (union q.senders part.now.senders) ≤ 16 }
        ensures ok { OnOk result (self.new ≡ charged self.old key part.now) }
        ensures err { OnErr result (self.new ≡ self.old) }
    {
        let place = search(self.rows.as_slice(), &key);
        join_at::<S>(&mut self.rows, place, key, part)
    }

    /// Whether an interface can carry this: the token bucket rates together are within its capacity, and no packet is larger
    /// than its MTU.
    pub(crate) fn is_carried(&self, iface: &Iface) -> bool
        ensures { IsTrue result ↔ IsCarried self.now iface.now }
    {
        is_within(self.rows.as_slice(), iface.capacity)
            && are_short(self.rows.as_slice(), iface.mtu)
    }
}

// Whether the rates of entries together are within a capacity.
fn is_within(rows: &[(EntryKey, Part)], capacity: u64) -> bool
    ensures { IsTrue result ↔ (sum_by (λ r. part_charge r.1) rows.now ≤ capacity) }
{
    let mut left = capacity;
    for row in rows {
        let rate = charge(&row.1);
        if left < rate {
            return false;
        }
        left -= rate;
    }
    true
}

// Whether no entry's packets are larger than this.
fn are_short(rows: &[(EntryKey, Part)], mtu: u32) -> bool
    ensures { IsTrue result ↔ All (λ r. r.1.flow.most ≤ mtu) rows.now }
{
    for row in rows {
        if row.1.flow.most > mtu {
            return false;
        }
    }
    true
}

// How an entry stands to a key.
fn order(entry: &(EntryKey, Part), key: &EntryKey) -> Ordering
    ensures { result ≡ entry_keys.cmp entry.now.0 key.now }
{
    entry.0.cmp(key)
}

// Where the entry of a key stands, or where it would go.
fn search(rows: &[(EntryKey, Part)], key: &EntryKey) -> Result<usize, usize>
    requires { AreInOrder rows.now }
    ensures there { IfOk result (HasRowAt entry_keys book_row rows.now key.now) }
    ensures absent { IfErr result (LacksRowAt entry_keys book_row rows.now key.now) }
{
    rows.binary_search_by(|row| order(row, key))
}

// Joins a part to the entry at the place that was found for it.
fn join_at<S: Style>(
    rows: &mut Vec<(EntryKey, Part)>,
    place: Result<usize, usize>,
    key: EntryKey,
    part: &Part,
) -> Result<(), NoMemory>
    requires there { ForOk place (HasRowAt entry_keys book_row rows.old.items key) }
    requires absent { ForErr place (LacksRowAt entry_keys book_row rows.old.items key) }
    requires room { (q : Part) → find entry_keys.cmp key (map book_row rows.old.items) ≡ Some q → size (union q.senders part.now.senders) ≤ 16 }
    ensures rows { OnOk result (map book_row rows.new.items ≡ put entry_keys.cmp key (joined_with (find entry_keys.cmp key (map book_row rows.old.items)) part.now) (map book_row rows.old.items)) }
    ensures err { OnErr result (rows.new.items ≡ rows.old.items) }
{
    match place {
        Ok(at) => {
            let joined = S::join(&rows[at].1, part);
            rows[at] = (key, joined);
            Ok(())
        }
        Err(at) => Ok(rows.insert(at, (key, part.copy()))?),
    }
}
