//! Lists of units.
ghost use Rattle.std.specs.Prelude.{◌≡◌, ◌≤◌, ◌↔◌, length, IsTrue, IfOk, IfErr};
ghost use Rattle.rsvp_base.specs.Orders.{units};
ghost use Rattle.rsvp_base.specs.Rows.{AreRows, HasRowAt, LacksRowAt};
ghost use Rattle.resv_sends.specs.Units.{unit_row};

use arrayvec::ArrayVec;
use rsvp_base::Unit;
use std::cmp::Ordering;
use std::marker::Model;

/// Units of the wants of a session, in order: at most 16. Contracts see the set of them.
#[derive(Drop)]
pub struct Units {
    list: ArrayVec<Unit, 16>,
    ghost rising: { AreRows units unit_row list.items },
    ghost few: { length list.items ≤ 16 },
}

impl Model for Units {
    ghost use Rattle.rsvp_base.specs.Orders.{units};
    ghost use Rattle.rsvp_base.specs.Rows.{table_of};
    ghost use Rattle.resv_sends.specs.Units.{UnitSet, unit_row, unit_set_code};

    ghost Value = { UnitSet };

    ghost coded = { unit_set_code };

    ghost view = { λ u. table_of units unit_row u.list.items u.rising };
}

impl Units {
    ghost use Rattle.rsvp_base.specs.Table.{empty, has, keys, size};
    ghost use Rattle.rsvp_base.specs.Sets.{union, with_key};

    /// None.
    pub fn new() -> Units
        ensures { result ≡ empty }
    {
        Units {
            list: ArrayVec::new(),
        }
    }

    /// Whether there are none.
    pub fn is_empty(&self) -> bool
        ensures { IsTrue result ↔ (size self.now ≡ 0) }
    {
        self.list.is_empty()
    }

    /// The units in order.
    pub fn as_slice(&self) -> &[Unit]
        ensures units { result.now ≡ keys self.now }
        ensures few { length result.now ≤ 16 }
    {
        self.list.as_slice()
    }

    /// Whether a unit is one of them.
    pub fn has(&self, unit: Unit) -> bool
        ensures { result ≡ has self.now unit }
    {
        search(self.list.as_slice(), unit).is_ok()
    }

    // Adds a unit, if it is not there.
    pub(crate) fn add(&mut self, unit: Unit)
        requires { size (with_key self.old unit) ≤ 16 }
        ensures { self.new ≡ with_key self.old unit }
    {
        if let Err(place) = search(self.list.as_slice(), unit) {
            self.list.insert(place, unit);
        }
    }

    // Adds those of another list that are not there.
    pub(crate) fn add_all(&mut self, more: &Units)
        requires { size (union self.old more.now) ≤ 16 }
        ensures { self.new ≡ union self.old more.now }
    {
        let list = more.as_slice();
        for i in 0..list.len() {
            self.add(list[i]);
        }
    }
}

// Where the unit stands, or where it would go.
fn search(list: &[Unit], unit: Unit) -> Result<usize, usize>
    requires { AreRows units unit_row list.now }
    ensures there { IfOk result (HasRowAt units unit_row list.now unit) }
    ensures absent { IfErr result (LacksRowAt units unit_row list.now unit) }
{
    list.binary_search_by(|row| unit_order(*row, unit))
}

// Units in order.
fn unit_order(a: Unit, b: Unit) -> Ordering
    ensures { result ≡ units.cmp a b }
{
    a.cmp(&b)
}
