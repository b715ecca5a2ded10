//! A node is cleared.
ghost use Rattle.std.specs.Prelude.{◌≡◌, ◌≤◌, ℕ, [], length, map, None, slice_get};
ghost use Rattle.std.specs.Option.{option_map};
ghost use Rattle.admission_book.specs.Book.{entries_on};
ghost use Rattle.admission_book.specs.Within.{IsWithin};
ghost use Rattle.rsvp_base.specs.Table.{empty, get};
ghost use Rattle.rsvp_base.specs.declared.entry_key.EntryKey.{EntryKey as KeyOfEntry};
ghost use Rattle.router_rules.specs.Inputs.{Clear};
ghost use Rattle.router_rules.specs.Rule.{facts_after, sent_after};
ghost use Rattle.router_state.specs.State.{facts_at};
ghost use Rattle.router_aging.specs.Clearing.{cleared};
ghost use Rattle.router_state.specs.Whole.{state_of};
ghost use Rattle.router_rounds.specs.Steps.{AreSound};

use crate::node::Node;
use admission_book::Book;
use router_aging::begin_all;
use router_state::Tables;
use rsvp_base::EntryKey;

// A node has at most so many interfaces.
const IFACES: u8 = 16;

impl Node {
    /// Forgets all but the local senders and wants, as a router that starts again. Nothing is sent, and each session with a
    /// local sender has a countdown of a whole period.
    pub fn clear(&mut self)
        ensures facts { (c : ℕ) → facts_at c self.new ≡ facts_after self.old.place self.old.place c Clear (facts_at c self.old) }
        ensures silent { (c : ℕ) → sent_after self.old.place self.old.place c Clear (facts_at c self.old) ≡ [] }
        ensures place { self.new.place ≡ self.old.place }
    {
        clear_tables(&mut self.tables);
        self.said.clear();
    }
}

// Takes all out but the local senders and wants. The countdowns begin anew.
fn clear_tables(tables: &mut Tables)
    requires { AreSound tables.old }
    ensures state { state_of tables.new empty ≡ cleared (state_of tables.old empty) }
    ensures sound { AreSound tables.new }
    ensures ifaces { tables.new.book.ifaces ≡ tables.old.book.ifaces }
{
    let period = tables.config.period();
    tables.paths.clear();
    tables.wild.clear();
    tables.fixed.clear();
    tables.shared.clear();
    tables.walls.clear();
    tables.due.clear();
    begin_all(&mut tables.due, &tables.senders, period);
    clear_book(&mut tables.book);
}

// Takes all entries out of a book.
fn clear_book(book: &mut Book)
    requires { length book.old.ifaces ≤ 16 }
    ensures none { (i : ℕ) (k : KeyOfEntry) → get book.new.entries (i, k) ≡ None }
    ensures ifaces { book.new.ifaces ≡ book.old.ifaces }
{
    for iface in 0..IFACES {
        clear_iface(book, iface);
    }
    // The proof sees here that all entries are of the book's interfaces.
    let _held = book.held(0);
}

// Takes all entries of an interface out of a book, and puts none in.
fn clear_iface(book: &mut Book, iface: u8)
    ensures none { (k : KeyOfEntry) → get book.new.entries (iface, k) ≡ None }
    ensures less { (i : ℕ) (k : KeyOfEntry) → get book.old.entries (i, k) ≡ None → get book.new.entries (i, k) ≡ None }
    ensures ifaces { book.new.ifaces ≡ book.old.ifaces }
{
    while let Some(key) = first_entry(book, iface) {
        let Ok(()) = book.try_change(iface, key, None) else {
            unreachable!();
        };
    }
}

// The first entry of an interface.
fn first_entry(book: &Book, iface: u8) -> Option<EntryKey>
    ensures entry { result ≡ option_map (λ e. e.0) (slice_get (entries_on book.now.entries iface).rows 0) }
    ensures within { IsWithin book.now }
{
    match book.at(iface, 0) {
        Some((key, _)) => Some(key),
        None => None,
    }
}
