//! Reservations die.
ghost use Rattle.std.specs.Prelude.{◌≡◌, ℕ, [], IfSome, IsNone};
ghost use Rattle.admission_book.specs.Book.{Entries};
ghost use Rattle.resv_state.specs.Resvs.{dead_after, later, resv_key};
ghost use Rattle.rsvp_base.specs.Table.{changed, get, without};
ghost use Rattle.router_rules.specs.Facts.{Facts, resvs_of};
ghost use Rattle.router_state.specs.State.{resv_at};
ghost use Rattle.resv_admission.specs.Dying.{IsBookBut, IsBookButWith};
ghost use Rattle.resv_admission.specs.Kept.{IsBookOf, facts_with};

use crate::book_renewal::{flow_at, look, renew};
use admission_book::Book;
use resv_state::{ResvFact, ResvTable};
use rsvp_base::EntryKey;
use style_rules::Style;

/// Lets time pass over the reservations of a style, as `ResvTable::advance`. The book is that of the facts, and is so
/// afterwards but for the dead ones that wait: they are to be pulled with `pull_dead`.
pub fn age<S: Style>(table: &mut ResvTable<S>, ms: u32)
    requires { table.old.dead.rows ≡ [] }
    ensures facts { table.new.facts ≡ changed (later ms) table.old.facts }
    ensures dead { table.new.dead ≡ changed (dead_after ms) table.old.facts }
    ensures book { (c d : ℕ) (f : Facts) (es : Entries) → resvs_of S.kind_is f ≡ changed (resv_at c) table.old.facts → IsBookOf f es
        → IsBookBut S.kind_is table.new.dead (facts_with S.kind_is d table.new.facts f) es }
{
    table.advance(ms);
}

/// Takes a dead reservation of a style out, and works its entry out anew, which the book never refuses. `None` exactly where
/// none waits; nothing changes then, and the book is that of the facts.
pub fn pull_dead<S: Style>(table: &mut ResvTable<S>, book: &mut Book) -> Option<ResvFact>
    requires kept { IsBookButWith S.kind_is table.old.facts table.old.dead book.old.entries }
    ensures dead { IfSome result (λ d. get table.old.dead (resv_key S.kind_is d) ≡ Some d) }
    ensures pulled { IfSome result (λ d. table.new ≡ record table.old { dead = without table.old.dead (resv_key S.kind_is d) }) }
    ensures none { IsNone result → table.old.dead.rows ≡ [] }
    ensures book { (c : ℕ) (f : Facts) → resvs_of S.kind_is f ≡ changed (resv_at c) table.old.facts
        → IsBookBut S.kind_is table.old.dead f book.old.entries → IsBookBut S.kind_is table.new.dead f book.new.entries }
    ensures whole { IsNone result → (f : Facts) → IsBookBut S.kind_is table.old.dead f book.old.entries → IsBookOf f book.new.entries }
    ensures ifaces { book.new.ifaces ≡ book.old.ifaces }
    ensures unchanged_table { IsNone result → table.new ≡ table.old }
    ensures unchanged_book { IsNone result → book.new ≡ book.old }
{
    look(table);
    let Some(gone) = table.pull_dead() else {
        return None;
    };
    let style = S::kind();
    let key = EntryKey {
        session: gone.session,
        style,
        unit: gone.part.unit(style),
    };
    let now = flow_at(table, gone.session, gone.iface, key.unit);
    renew(book, gone.iface, &key, now);
    Some(gone)
}
