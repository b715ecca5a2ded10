//! Reservations die.
ghost use Rattle.std.specs.Prelude.{◌≡◌, ℕ, []};
ghost use Rattle.resv_state.specs.Resvs.{later};
ghost use Rattle.rsvp_base.specs.Table.{changed, empty};
ghost use Rattle.router_rules.specs.Facts.{Facts, resvs_of};
ghost use Rattle.resv_admission.specs.State.{resv_at};
ghost use Rattle.blockade_state.specs.Touched.{touched_by};
ghost use Rattle.resv_admission.specs.Dying.{IsBookBut, IsBookButWith};
ghost use Rattle.resv_admission.specs.Kept.{IsBookOf, IsBookWith, facts_with};
ghost use Rattle.router_aging.specs.Passed.{dying_in, sessions_in};

use admission_book::Book;
use blockade_state::Touched;
use resv_admission::{age, pull_dead};
use resv_state::ResvTable;
use style_rules::Style;

/// Lets time pass over the reservations of a style, in milliseconds. Those with at most so much left are gone then, and their
/// sessions are touched; the others have so much less left. The book is that of the facts, and is so afterwards. No dead
/// reservation may wait from before, and none waits then.
pub fn age_resvs<S: Style>(
    table: &mut ResvTable<S>,
    book: &mut Book,
    ms: u32,
    touched: &mut Touched,
)
    requires pulled { table.old.dead.rows ≡ [] }
    requires kept { IsBookWith S.kind_is table.old.facts book.old.entries }
    ensures table { table.new ≡ record { facts = changed (later ms) table.old.facts; dead = empty } }
    ensures touched { touched.new ≡ touched_by (dying_in ms table.old.facts) touched.old }
    ensures book { (c d : ℕ) (f : Facts) → resvs_of S.kind_is f ≡ changed (resv_at c) table.old.facts → IsBookOf f book.old.entries
        → IsBookOf (facts_with S.kind_is d table.new.facts f) book.new.entries }
    ensures ifaces { book.new.ifaces ≡ book.old.ifaces }
{
    age(table, ms);
    pull_all(table, book, touched);
}

// Takes the dead reservations out, all of them.
fn pull_all<S: Style>(table: &mut ResvTable<S>, book: &mut Book, touched: &mut Touched)
    requires { IsBookButWith S.kind_is table.old.facts table.old.dead book.old.entries }
    ensures table { table.new ≡ record { facts = table.old.facts; dead = empty } }
    ensures touched { touched.new ≡ touched_by (sessions_in table.old.dead) touched.old }
    ensures book { (c : ℕ) (f : Facts) → resvs_of S.kind_is f ≡ changed (resv_at c) table.old.facts → IsBookBut S.kind_is table.old.dead f book.old.entries → IsBookOf f book.new.entries }
    ensures ifaces { book.new.ifaces ≡ book.old.ifaces }
{
    while let Some(gone) = pull_dead(table, book) {
        touched.touch(gone.session);
    }
}
