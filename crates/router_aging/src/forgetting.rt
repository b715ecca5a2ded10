//! Names of senders whose paths died are forgotten.
ghost use Rattle.std.specs.Prelude.{◌≡◌, ◌≤◌, ℕ, [], ◌∷◌, length};
ghost use Rattle.rsvp_base.specs.Table.{keys};
ghost use Rattle.resv_admission.specs.Forgotten.{forgotten_all};
ghost use Rattle.resv_admission.specs.State.{State, facts_of};
ghost use Rattle.router_aging.specs.Losing.{lost_names};
ghost use Rattle.router_aging.specs.Passing.{dead_key};
ghost use Rattle.resv_admission.specs.Kept.{IsBookWith, MovesWith};

use crate::dead::{DeadPath, DeadPaths};
use crate::lost_names::lost_name;
use admission_book::Book;
use local_state::LocalSenders;
use path_state::PathTable;
use resv_admission::forget_name;
use resv_state::ResvTable;
use style_rules::Style;

/// The names of the senders whose paths died leave the reservations of a style, where no known sender has them any more, and
/// the entries of their units are worked out anew. The book is that of the facts, and is so afterwards.
pub fn forget_dead<S: Style>(
    table: &mut ResvTable<S>,
    book: &mut Book,
    senders: &LocalSenders,
    paths: &PathTable,
    dead: &DeadPaths,
)
    requires few { length book.old.ifaces ≤ 16 }
    requires kept { IsBookWith S.kind_is table.old.facts book.old.entries }
    ensures table { (c : ℕ) (n : State) → n.senders ≡ senders.now.tspecs → n.paths ≡ paths.now.facts
        → table.new ≡ record table.old { facts = forgotten_all (lost_names S.kind_is (facts_of c n) (keys dead.now)) table.old.facts } }
    ensures book { MovesWith S.kind_is table.old.facts table.new.facts book.old.entries book.new.entries }
    ensures ifaces { book.new.ifaces ≡ book.old.ifaces }
{
    let list = dead.as_slice();
    for i in 0..list.len() {
        forget_one(table, book, senders, paths, &list[i]);
    }
}

/// The name of one sender leaves the reservations of a style, as `forget_dead` has it of many.
pub fn forget_one<S: Style>(
    table: &mut ResvTable<S>,
    book: &mut Book,
    senders: &LocalSenders,
    paths: &PathTable,
    dead: &DeadPath,
)
    requires few { length book.old.ifaces ≤ 16 }
    requires kept { IsBookWith S.kind_is table.old.facts book.old.entries }
    ensures table { (c : ℕ) (n : State) → n.senders ≡ senders.now.tspecs → n.paths ≡ paths.now.facts
        → table.new ≡ record table.old { facts = forgotten_all (lost_names S.kind_is (facts_of c n) (dead_key dead.now ∷ [])) table.old.facts } }
    ensures book { MovesWith S.kind_is table.old.facts table.new.facts book.old.entries book.new.entries }
    ensures ifaces { book.new.ifaces ≡ book.old.ifaces }
{
    if let Some(name) = lost_name(senders, paths, S::kind(), dead) {
        forget_name(table, book, dead.session, name);
    }
}
