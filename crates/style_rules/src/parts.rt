//! Lists of parts.
ghost use Rattle.std.specs.Prelude.{◌≡◌, ◌≤◌, ◌<◌, ◌↔◌, length, IsTrue, IsErr, OnOk, OnErr, IfOk, IfErr, slice_get};
ghost use Rattle.std.specs.Option.{option_copied};
ghost use Rattle.rsvp_base.specs.Orders.{units};
ghost use Rattle.rsvp_base.specs.Rows.{AreRows};
ghost use Rattle.style_rules.specs.Same.{is_part_in, parts_le};

use crate::style::le_parts;
use arrayvec::ArrayVec;
use rsvp_base::sorted::{put_row, search};
use rsvp_base::{Full, Part, Unit};
use std::marker::Model;

/// At most 16 parts, one for a unit, in order of unit. Contracts see the table of them by unit.
#[derive(Drop)]
pub struct Parts {
    rows: ArrayVec<(Unit, Part), 16>,
    ghost rising: { AreRows units (λ e. e) rows.items },
    ghost few: { length rows.items ≤ 16 },
}

impl Model for Parts {
    ghost use Rattle.rsvp_base.specs.Codes.{unit_code, part_code};
    ghost use Rattle.rsvp_base.specs.Orders.{units};
    ghost use Rattle.rsvp_base.specs.Rows.{table_of};
    ghost use Rattle.rsvp_base.specs.Table.{table_code};
    ghost use Rattle.style_rules.specs.Merge.{PartTable};

    ghost Value = { PartTable };

    ghost coded = { table_code units unit_code part_code };

    ghost view = { λ p. table_of units (λ e. e) p.rows.items p.rising };
}

impl Parts {
    ghost use Rattle.rsvp_base.specs.Table.{empty, get, put_in, size, values};

    /// No part.
    pub fn new() -> Parts
        ensures { result ≡ empty }
    {
        Parts {
            rows: ArrayVec::new(),
        }
    }

    /// Takes all out. What stood there is not written over.
    pub fn clear(&mut self)
        ensures { self.new ≡ empty }
    {
        self.rows.clear();
    }

    /// How many there are, at most 16.
    pub fn len(&self) -> usize
        ensures size { result ≡ size self.now }
        ensures few { result ≤ 16 }
    {
        self.rows.len()
    }

    /// Whether there are none.
    pub fn is_empty(&self) -> bool
        ensures { IsTrue result ↔ (size self.now ≡ 0) }
    {
        self.rows.is_empty()
    }

    /// The parts with their units, in order of unit.
    pub fn as_slice(&self) -> &[(Unit, Part)]
        ensures rows { result.now ≡ self.now.rows }
        ensures few { length result.now ≤ 16 }
    {
        self.rows.as_slice()
    }

    /// The k-th part by unit, from 0. `None` exactly where k is not below the length.
    pub fn at(&self, k: usize) -> Option<Part>
        ensures { result ≡ slice_get (values self.now) k }
    {
        let (_, part) = self.row_at(k)?;
        Some(part.copy())
    }

    fn row_at(&self, k: usize) -> Option<&(Unit, Part)>
        ensures { option_copied result ≡ slice_get self.now.rows k }
    {
        self.as_slice().get(k)
    }

    /// The part of a unit. `None` exactly where it has none.
    pub fn get(&self, unit: Unit) -> Option<&Part>
        ensures { option_copied result ≡ get self.now unit }
    {
        let place = search(self.rows.as_slice(), &unit).ok()?;
        Some(&self.rows.as_slice()[place].1)
    }

    /// Puts a part in place of that of its unit. `Full` exactly where the unit is new and 16 are there; nothing changes
    /// then.
    pub fn put(&mut self, unit: Unit, part: Part) -> Result<(), Full>
        ensures ok { OnOk result (self.new ≡ put_in self.old unit part) }
        ensures full { IsErr result ↔ (16 < size (put_in self.old unit part)) }
        ensures err { OnErr result (self.new ≡ self.old) }
    {
        put_row(&mut self.rows, (unit, part))
    }

    /// Whether the other list is the same: the same units with the same parts.
    pub fn is_same(&self, other: &Parts) -> bool
        ensures { IsTrue result ↔ (self.now ≡ other.now) }
    {
        are_in(self, other) && are_in(other, self)
    }

    pub(crate) fn of_rows(rows: ArrayVec<(Unit, Part), 16>) -> Parts
        requires rising { AreRows units (λ e. e) rows.items }
        requires few { length rows.items ≤ 16 }
        ensures { result.rows ≡ rows.items }
    {
        Parts { rows }
    }

    /// An equal list.
    pub fn copy(&self) -> Parts
        ensures { result ≡ self.now }
    {
        let mut rows = ArrayVec::new();
        for (unit, part) in self.as_slice() {
            rows.push((*unit, part.copy()));
        }
        Parts { rows }
    }
}

fn are_in(parts: &Parts, others: &Parts) -> bool
    ensures { result ≡ parts_le parts.now others.now }
{
    parts.as_slice().iter().all(|row| is_in(row, others))
}

fn is_in(row: &(Unit, Part), others: &Parts) -> bool
    ensures { result ≡ is_part_in others.now row.now }
{
    match others.get(row.0) {
        Some(part) => le_parts(&row.1, part),
        None => false,
    }
}

impl Default for Parts {
    fn default() -> Parts {
        Parts::new()
    }
}
