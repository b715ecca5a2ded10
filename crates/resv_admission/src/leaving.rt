//! Names leave.
ghost use Rattle.std.specs.Prelude.{◌≡◌, ◌≤◌, ℕ, false, length, Some, None};
ghost use Rattle.resv_state.specs.Leaving.{forgotten};
ghost use Rattle.rsvp_base.specs.declared.style.StyleKind.TheVariants.{Wild as WildKind};
ghost use Rattle.rsvp_base.specs.Table.{changed};
ghost use Rattle.router_rules.specs.Asking.{names_one, torn_resvs};
ghost use Rattle.router_state.specs.State.{resv_at};
ghost use Rattle.resv_admission.specs.Kept.{IsBookWith, MovesWith};

use crate::book_renewal::{look, renew_everywhere, renew_names};
use admission_book::Book;
use resv_state::ResvTable;
use rsvp_base::{Addr, EntryKey, Sender, Senders, Session, Unit};
use style_rules::{Style, Wild};

/// A sender leaves all reservations of a session and style, as `ResvTable::forget_sender` has it, and the entries of its unit
/// on all interfaces are worked out anew, which the book never refuses. The book is that of the facts, and is so afterwards.
pub fn forget_name<S: Style>(
    table: &mut ResvTable<S>,
    book: &mut Book,
    session: Session,
    name: Sender,
)
    requires few { length book.old.ifaces ≤ 16 }
    requires kept { IsBookWith S.kind_is table.old.facts book.old.entries }
    ensures table { table.new ≡ record table.old { facts = changed (forgotten session name) table.old.facts } }
    ensures book { MovesWith S.kind_is table.old.facts table.new.facts book.old.entries book.new.entries }
    ensures ifaces { book.new.ifaces ≡ book.old.ifaces }
{
    look(table);
    table.forget_sender(session, name);
    look(table);
    let key = EntryKey {
        session,
        style: S::kind(),
        unit: S::unit_of(name),
    };
    renew_everywhere(table, book, &key);
}

/// The senders `gone` leave the reservations of a session, style and next hop (RFC 2209, 2: RESV TEAR MESSAGE ARRIVES), and
/// the entries of their units on its interface are worked out anew, which the book never refuses. The book is that of the
/// facts, and is so afterwards. False exactly where no reservation of the next hop had one of them; nothing changes then.
pub fn tear_names<S: Style>(
    table: &mut ResvTable<S>,
    book: &mut Book,
    session: Session,
    iface: u8,
    next: Addr,
    gone: &Senders,
) -> bool
    requires kept { IsBookWith S.kind_is table.old.facts book.old.entries }
    ensures had { (c : ℕ) → result ≡ names_one session (iface, next) (Some gone.now) (changed (resv_at c) table.old.facts) }
    ensures table { (c : ℕ) → changed (resv_at c) table.new.facts ≡ torn_resvs result session (iface, next) (Some gone.now) (changed (resv_at c) table.old.facts) }
    ensures dead { table.new.dead ≡ table.old.dead }
    ensures book { MovesWith S.kind_is table.old.facts table.new.facts book.old.entries book.new.entries }
    ensures ifaces { book.new.ifaces ≡ book.old.ifaces }
    ensures unchanged_table { result ≡ false → table.new ≡ table.old }
    ensures unchanged_book { result ≡ false → book.new ≡ book.old }
{
    look(table);
    if !table.remove(session, iface, next, gone) {
        return false;
    }
    look(table);
    let kept = table.parts(session, iface);
    renew_names::<S>(&kept, book, session, iface, gone);
    true
}

/// All senders leave the wildcard reservation of a session and next hop, as by a ResvTear without SCOPE; otherwise as
/// `tear_names`.
pub fn tear_all(
    table: &mut ResvTable<Wild>,
    book: &mut Book,
    session: Session,
    iface: u8,
    next: Addr,
) -> bool
    requires kept { IsBookWith WildKind table.old.facts book.old.entries }
    ensures had { (c : ℕ) → result ≡ names_one session (iface, next) None (changed (resv_at c) table.old.facts) }
    ensures table { (c : ℕ) → changed (resv_at c) table.new.facts ≡ torn_resvs result session (iface, next) None (changed (resv_at c) table.old.facts) }
    ensures dead { table.new.dead ≡ table.old.dead }
    ensures book { MovesWith WildKind table.old.facts table.new.facts book.old.entries book.new.entries }
    ensures ifaces { book.new.ifaces ≡ book.old.ifaces }
    ensures unchanged_table { result ≡ false → table.new ≡ table.old }
    ensures unchanged_book { result ≡ false → book.new ≡ book.old }
{
    match table.find(session, iface, next, Unit::One) {
        Some(fact) => tear_names(table, book, session, iface, next, &fact.part.senders),
        None => false,
    }
}
