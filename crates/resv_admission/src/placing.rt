//! A reservation takes its place, or is refused.
ghost use Rattle.std.specs.Prelude.{◌≡◌, ◌≤◌, ◌<◌, ℕ, [], length, OnErr, OnOk};
ghost use Rattle.resv_state.specs.Resvs.{resv_key};
ghost use Rattle.rsvp_base.specs.Table.{changed, put_in};
ghost use Rattle.style_rules.specs.Parts.{IsOfStyle};
ghost use Rattle.router_rules.specs.Calls.{stale_refusal};
ghost use Rattle.router_rules.specs.Facts.{Facts, resvs_of};
ghost use Rattle.router_rules.specs.Inputs.{StaleResv};
ghost use Rattle.router_rules.specs.NodeConfig.{NodeConfig};
ghost use Rattle.router_state.specs.State.{resv_at};
ghost use Rattle.resv_admission.specs.Kept.{IsBookOf, MovesWith};
ghost use Rattle.resv_admission.specs.declared.placing.Placed.TheVariants.{Taken};
ghost use Rattle.resv_admission.specs.Placing.{IsBookAmong, chosen, err_of, placed_in, stands};

use crate::book_renewal::look;
use admission_book::{Book, Refused};
use resv_state::{ResvFact, ResvTable};
use router_rules::StaleErr;
use rsvp_base::EntryKey;
use style_rules::Style;

/// What became of a reservation.
#[derive(Clone, Copy, Debug, PartialEq, Eq)]
pub enum Placed {
    /// The table has no room for it.
    LeftOut,
    /// The book refuses its entry.
    Refused(Refused),
    Taken,
}

/// A reservation with this much left, in milliseconds, takes its place in the table, and its entry in the book, where both
/// have room for it; else nothing changes, and no lifetime begins anew. What its next hop had of the unit before does not
/// count in the entry. The reservation is of the style, its interface is one of the book's, and no dead one may wait. The
/// book is that of the facts, and is so afterwards.
///
/// `LeftOut`: the table would not be within its limits. `Refused`: this is not so, and the book refuses the entry.
pub fn place<S: Style>(
    table: &mut ResvTable<S>,
    book: &mut Book,
    fact: ResvFact,
    left: u32,
) -> Placed
    requires style { IsOfStyle S.kind_is fact.part }
    requires some { 1 ≤ left }
    requires pulled { table.old.dead.rows ≡ [] }
    requires exists { fact.iface < length book.old.ifaces }
    requires kept { IsBookAmong S.kind_is table.old.facts book.old.entries }
    ensures result { (p : NodeConfig) (c : ℕ) (f : Facts) → p.ifaces ≡ book.old.ifaces → resvs_of S.kind_is f ≡ changed (resv_at c) table.old.facts
        → IsBookOf f book.old.entries → result ≡ placed_in p S.kind_is c fact left f }
    ensures table { table.new ≡ record table.old { facts = chosen result (put_in table.old.facts (resv_key S.kind_is fact) (fact, left)) table.old.facts } }
    ensures book { MovesWith S.kind_is table.old.facts table.new.facts book.old.entries book.new.entries }
    ensures ifaces { book.new.ifaces ≡ book.old.ifaces }
    ensures unchanged { (result ≡ Taken → ⊥) → book.new ≡ book.old }
{
    look(table);
    if !table.fits(&fact) {
        return Placed::LeftOut;
    }
    let style = S::kind();
    let key = EntryKey {
        session: fact.session,
        style,
        unit: fact.part.unit(style),
    };
    let entry = table.entry_with(&fact);
    if let Err(why) = book.try_change(fact.iface, key, Some(entry)) {
        return Placed::Refused(why);
    }
    let Ok(()) = table.put(fact, left) else {
        unreachable!();
    };
    Placed::Taken
}

/// A left-over reservation with this much left stands, exactly where `place` would take it; nothing is sent for it. The
/// premises are those of `place`.
///
/// `Full`: the table would not be within its limits. `Over`: this is not so, and the book refuses the entry. Nothing changes
/// after either.
pub fn stand<S: Style>(
    table: &mut ResvTable<S>,
    book: &mut Book,
    fact: ResvFact,
    left: u32,
) -> Result<(), StaleErr>
    requires style { IsOfStyle S.kind_is fact.part }
    requires some { 1 ≤ left }
    requires pulled { table.old.dead.rows ≡ [] }
    requires exists { fact.iface < length book.old.ifaces }
    requires kept { IsBookAmong S.kind_is table.old.facts book.old.entries }
    ensures cause { (p : NodeConfig) (c : ℕ) (f : Facts) → p.ifaces ≡ book.old.ifaces → resvs_of S.kind_is f ≡ changed (resv_at c) table.old.facts
        → IsBookOf f book.old.entries → err_of result ≡ stale_refusal p (StaleResv S.kind_is (resv_key S.kind_is fact) (stands c fact left)) f }
    ensures ok { OnOk result (table.new ≡ record table.old { facts = put_in table.old.facts (resv_key S.kind_is fact) (fact, left) }) }
    ensures book { MovesWith S.kind_is table.old.facts table.new.facts book.old.entries book.new.entries }
    ensures ifaces { book.new.ifaces ≡ book.old.ifaces }
    ensures err_table { OnErr result (table.new ≡ table.old) }
    ensures err_book { OnErr result (book.new ≡ book.old) }
{
    match place(table, book, fact, left) {
        Placed::LeftOut => Err(StaleErr::Full),
        Placed::Refused(_) => Err(StaleErr::Over),
        Placed::Taken => Ok(()),
    }
}
