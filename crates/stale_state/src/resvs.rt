//! The reservations that are left over at a node, and the book of its interfaces.
ghost use Rattle.std.specs.Prelude.{◌≡◌, ◌≤◌, ◌<◌, [], ℕ, length, slice_get, IfOk, Some};
ghost use Rattle.rsvp_base.specs.Table.{has, put_in};
ghost use Rattle.resv_state.specs.Resvs.{resv_key};
ghost use Rattle.style_rules.specs.Limits.{IsWithinLimits};
ghost use Rattle.style_rules.specs.Parts.{IsOfStyle};
ghost use Rattle.router_rules.specs.Books.{lines_of};
ghost use Rattle.router_rules.specs.Facts.{no_resvs, table_of, with_table};
ghost use Rattle.resv_admission.specs.Kept.{IsBookOf};
ghost use Rattle.resv_admission.specs.Placing.{chosen, placed_in, stands};
ghost use Rattle.stale_state.specs.Tables.{AreAdmitted, only_resvs, place_with, tables_of};
ghost use Rattle.rsvp_base.specs.declared.style.StyleKind.{StyleKind as Kind};

use admission_book::Book;
use resv_admission::{Placed, place};
use resv_state::{ResvFact, ResvTable};
use rsvp_base::{Addr, Iface, NoMemory, Session, StyleKind, Unit};
use std::alloc::Global;
use style_rules::{Fixed, Shared, Wild};

// A table for each style, and the book of what stands in them.
#[derive(Drop)]
pub(crate) struct ResvsLeft {
    pub(crate) wild: ResvTable<Wild>,
    pub(crate) fixed: ResvTable<Fixed>,
    pub(crate) shared: ResvTable<Shared>,
    pub(crate) book: Book,
    pub ghost no_wild_waits: { wild.dead.rows ≡ [] },
    pub ghost no_fixed_waits: { fixed.dead.rows ≡ [] },
    pub ghost no_shared_waits: { shared.dead.rows ≡ [] },
    pub ghost booked: { IsBookOf (only_resvs (tables_of wild.facts fixed.facts shared.facts)) book.entries },
    pub ghost within: { (st : Kind) → IsWithinLimits st (lines_of st (table_of st (tables_of wild.facts fixed.facts shared.facts))) },
    pub ghost admitted: { AreAdmitted book.ifaces (only_resvs (tables_of wild.facts fixed.facts shared.facts)) },
}

impl ResvsLeft {
    /// No reservations, on these interfaces.
    pub(crate) fn open(alloc: Global, ifaces: &Vec<Iface>) -> Result<ResvsLeft, NoMemory>
        ensures none { IfOk result (λ r. tables_of r.wild.facts r.fixed.facts r.shared.facts ≡ no_resvs) }
        ensures ifaces { IfOk result (λ r. r.book.ifaces ≡ ifaces.now.items) }
    {
        Ok(ResvsLeft {
            wild: ResvTable::open(alloc)?,
            fixed: ResvTable::open(alloc)?,
            shared: ResvTable::open(alloc)?,
            book: Book::open(alloc, ifaces)?,
        })
    }

    /// Whether there is a reservation of a style, session, next hop and unit.
    pub(crate) fn has(
        &self,
        style: StyleKind,
        session: Session,
        iface: u8,
        next: Addr,
        unit: Unit,
    ) -> bool
        ensures { result ≡ has (table_of style (tables_of self.now.wild.facts self.now.fixed.facts self.now.shared.facts)) (session, ((iface, next), unit)) }
    {
        match style {
            StyleKind::Wild => self.wild.find(session, iface, next, unit).is_some(),
            StyleKind::Fixed => self.fixed.find(session, iface, next, unit).is_some(),
            StyleKind::Shared => self.shared.find(session, iface, next, unit).is_some(),
        }
    }

    /// The interface of this number.
    pub(crate) fn iface(&self, number: u8) -> Iface
        requires { number < length self.now.book.ifaces }
        ensures { slice_get self.now.book.ifaces number ≡ Some result }
    {
        self.book.ifaces()[number as usize]
    }

    /// A reservation stands, with this much left, in milliseconds.
    ///
    /// `LeftOut`: its table would not be within its limits. `Refused`: this is not so, and the book refuses its entry. Nothing
    /// changes after either.
    pub(crate) fn stand(&mut self, style: StyleKind, fact: ResvFact, left: u32) -> Placed
        requires style { IsOfStyle style fact.part }
        requires some { 1 ≤ left }
        requires exists { fact.iface < length self.old.book.ifaces }
        ensures cause { result ≡ placed_in (place_with self.old.book.ifaces) style 0 fact left (only_resvs (tables_of self.old.wild.facts self.old.fixed.facts self.old.shared.facts)) }
        ensures tables { tables_of self.new.wild.facts self.new.fixed.facts self.new.shared.facts
            ≡ chosen result
            (with_table style
            (put_in (table_of style (tables_of self.old.wild.facts self.old.fixed.facts self.old.shared.facts)) (resv_key style fact) (stands 0 fact left))
            (tables_of self.old.wild.facts self.old.fixed.facts self.old.shared.facts))
            (tables_of self.old.wild.facts self.old.fixed.facts self.old.shared.facts) }
        ensures ifaces { self.new.book.ifaces ≡ self.old.book.ifaces }
    {
        match style {
            StyleKind::Wild => place(&mut self.wild, &mut self.book, fact, left),
            StyleKind::Fixed => place(&mut self.fixed, &mut self.book, fact, left),
            StyleKind::Shared => place(&mut self.shared, &mut self.book, fact, left),
        }
    }
}
