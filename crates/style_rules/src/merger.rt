//! The merge of parts.
ghost use Rattle.std.specs.Prelude.{◌≡◌, ◌≤◌, ◌↔◌, List, ◌∷◌, ◌++◌, [], map, true, false, IsTrue, IfOk, IfErr};
ghost use Rattle.rsvp_base.specs.Orders.{units};
ghost use Rattle.rsvp_base.specs.Rows.{AreRows};
ghost use Rattle.rsvp_base.specs.Sets.{union};
ghost use Rattle.rsvp_base.specs.Table.{size};
ghost use Rattle.style_rules.specs.Tally.{stood_with, AreNamed, NamesFit};
ghost use Rattle.style_rules.specs.TallyRows.{standing_of, tally_row};

use crate::parts::Parts;
use crate::row::Row;
use crate::style::Style;
use arrayvec::ArrayVec;
use rsvp_base::sorted::search;
use rsvp_base::{Part, Unit};
use std::marker::{Model, PhantomData};

/// Requests of a style, merged as they are added. Contracts see of each unit the join of its open requests, or the meet of
/// all where none is open.
#[derive(Drop)]
pub struct Merger<S: Style> {
    rows: ArrayVec<Row, 16>,
    of: PhantomData<S>,
    ghost rising: { AreRows units tally_row rows.items },
    ghost named: { AreNamed S.kind_is (map tally_row rows.items) },
    ghost few: { NamesFit (map tally_row rows.items) },
}

impl<S: Style> Model for Merger<S> {
    ghost use Rattle.rsvp_base.specs.Orders.{units};
    ghost use Rattle.rsvp_base.specs.Rows.{table_of};
    ghost use Rattle.style_rules.specs.Tally.{TallyTable, tally_code};
    ghost use Rattle.style_rules.specs.TallyRows.{tally_row};

    ghost Value = { TallyTable };

    ghost coded = { tally_code };

    ghost view = { λ m. table_of units tally_row m.rows.items m.rising };
}

impl<S: Style> Merger<S> {
    ghost use Rattle.rsvp_base.specs.declared.part.Part.{Part};
    ghost use Rattle.style_rules.specs.Merge.{merge};
    ghost use Rattle.rsvp_base.specs.Table.{get, put_in};
    ghost use Rattle.style_rules.specs.Parts.{has_name};
    ghost use Rattle.rsvp_base.specs.Styles.{part_unit};
    ghost use Rattle.style_rules.specs.Tally.{first_or_with, with_request, tally_of, parts_of_tally, names_of_tally};
    ghost use Rattle.rsvp_base.specs.declared.style.Unit.{Unit};
    ghost use Rattle.rsvp_base.specs.Members.{In};
    ghost use Rattle.style_rules.specs.Toward.{Request, parts_of, toward};

    /// No request.
    pub fn new() -> Merger<S>
        ensures { result ≡ tally_of S.kind_is [] }
    {
        Merger {
            rows: ArrayVec::new(),
            of: PhantomData,
        }
    }

    /// Whether there is room for a part: the requests that count so far and this part name at most 16 distinct senders.
    pub fn fits(&self, part: &Part) -> bool
        ensures { IsTrue result ↔ (size (union (names_of_tally self.now) part.now.senders) ≤ 16) }
    {
        let mut all = part.senders.copy();
        for row in self.rows.as_slice() {
            match all.union(&row.part.senders) {
                Ok(more) => all = more,
                Err(_) => return false,
            }
        }
        true
    }

    /// Adds a request, blockaded or not. One that names nobody falls away.
    pub fn add(&mut self, part: &Part, blockaded: bool)
        requires { size (union (names_of_tally self.old) part.now.senders) ≤ 16 }
        ensures kept { self.new ≡ with_request S.kind_is self.old part.now blockaded }
        ensures list { (rs : List Request) → self.old ≡ tally_of S.kind_is rs → self.new ≡ tally_of S.kind_is (rs ++ record { part = part.now; blockaded = blockaded } ∷ []) }
    {
        if let Some(first) = part.senders.at(0) {
            self.keep(S::unit_of(first), part, blockaded);
        }
    }

    fn keep(&mut self, unit: Unit, part: &Part, blockaded: bool)
        requires named { has_name part.now ≡ true }
        requires unit { unit ≡ part_unit S.kind_is part.now }
        requires room { size (union (names_of_tally self.old) part.now.senders) ≤ 16 }
        ensures { self.new ≡ put_in self.old unit (first_or_with (get self.old unit) part.now blockaded) }
    {
        match search(self.rows.as_slice(), &unit) {
            Ok(place) => stand_with::<S>(&mut self.rows[place], part, blockaded),
            Err(place) => self.rows.insert(
                place,
                Row {
                    unit,
                    part: part.copy(),
                    is_open: !blockaded,
                },
            ),
        }
    }

    /// Of each unit the join of the requests that are not blockaded, or, where all are, their meet.
    pub fn finish(&self) -> Parts
        ensures kept { result ≡ parts_of_tally self.now }
        ensures toward { (rs : List Request) → self.now ≡ tally_of S.kind_is rs → result ≡ toward S.kind_is rs }

        // It is at most the merge of all requests, and that merge where none was blockaded.
        ensures below { (rs : List Request) (u : Unit) (t m : Part) → self.now ≡ tally_of S.kind_is rs → get result u ≡ Some t → get (merge S.kind_is (parts_of rs)) u ≡ Some m → S.at_most t m }
        ensures unblockaded { (rs : List Request) → self.now ≡ tally_of S.kind_is rs → ((r : Request) → In r rs → r.blockaded ≡ false) → result ≡ merge S.kind_is (parts_of rs) }
    {
        let mut rows = ArrayVec::new();
        for row in self.rows.as_slice() {
            rows.push((row.unit, row.part.copy()));
        }
        Parts::of_rows(rows)
    }

    /// An equal merger.
    pub fn copy(&self) -> Merger<S>
        ensures { result ≡ self.now }
    {
        let mut rows = ArrayVec::new();
        for row in self.rows.as_slice() {
            rows.push(Row {
                unit: row.unit,
                part: row.part.copy(),
                is_open: row.is_open,
            });
        }
        Merger {
            rows,
            of: PhantomData,
        }
    }
}

impl<S: Style> Default for Merger<S> {
    fn default() -> Merger<S> {
        Merger::new()
    }
}

fn stand_with<S: Style>(row: &mut Row, part: &Part, blockaded: bool)
    requires { size (union row.old.part.senders part.now.senders) ≤ 16 }
    ensures unit { row.new.unit ≡ row.old.unit }
    ensures standing { standing_of row.new ≡ stood_with (standing_of row.old) part.now blockaded }
{
    if !blockaded {
        row.part = if row.is_open {
            S::join(&row.part, part)
        } else {
            part.copy()
        };
        row.is_open = true;
    } else if !row.is_open {
        row.part = S::meet(&row.part, part);
    }
}
