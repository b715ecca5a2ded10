//! Entries are worked out anew.
ghost use Rattle.std.specs.Prelude.{◌≡◌, ◌≤◌, ℕ, true, length};
ghost use Rattle.admission_book.specs.Within.{IsWithin};
ghost use Rattle.resv_state.specs.Merging.{parts_on};
ghost use Rattle.resv_state.specs.Resvs.{AreOfStyle, resv_lines};
ghost use Rattle.resv_state.specs.Walks.{rests};
ghost use Rattle.rsvp_base.specs.Orders.{sessions};
ghost use Rattle.rsvp_base.specs.Table.{get, keys};
ghost use Rattle.rsvp_base.specs.Under.{under};
ghost use Rattle.rsvp_base.specs.declared.entry_key.EntryKey.{EntryKey};
ghost use Rattle.style_rules.specs.Limits.{IsWithinLimits};
ghost use Rattle.style_rules.specs.Merge.{merge};
ghost use Rattle.resv_admission.specs.Kept.{flow_in};
ghost use Rattle.resv_admission.specs.Renewed.{AreRenewed, IsNoMore, entry_in, is_key, is_named, is_place};

use admission_book::Book;
use resv_state::ResvTable;
use rsvp_base::{EntryKey, Flow, Senders, Session, Unit};
use style_rules::{Parts, Style};

// A node has at most so many interfaces.
const IFACES: u8 = 16;

// What holds of every table.
pub(crate) fn look<S: Style>(table: &ResvTable<S>)
    ensures style { AreOfStyle S.kind_is table.now.facts }
    ensures within { IsWithinLimits S.kind_is (resv_lines S.kind_is table.now.facts) }
{
    table.limits();
}

// What holds of every book.
fn look_at(book: &Book)
    ensures { IsWithin book.now }
{
    book.held(0);
}

// An entry, if there is one, gets a flow that is no more, or goes.
pub(crate) fn renew(book: &mut Book, iface: u8, key: &EntryKey, now: Option<Flow>)
    requires { IsNoMore now (get book.old.entries (iface, key.now)) }
    ensures entries { AreRenewed (is_place iface key.now) (λ i k. now) book.old.entries book.new.entries }
    ensures ifaces { book.new.ifaces ≡ book.old.ifaces }
{
    if book.entry(iface, key).is_none() {
        return;
    }
    let Ok(()) = book.try_change(iface, *key, now) else {
        unreachable!();
    };
}

// The flow of a unit.
fn flow_of(parts: &Parts, unit: Unit) -> Option<Flow>
    ensures { result ≡ flow_in (get parts.now unit) }
{
    match parts.get(unit) {
        Some(part) => Some(part.flow),
        None => None,
    }
}

// The flow of a unit of a session's parts on an interface. The room of the parts is taken here, and not by a caller who finds
// nothing to work out.
pub(crate) fn flow_at<S: Style>(
    table: &ResvTable<S>,
    session: Session,
    iface: u8,
    unit: Unit,
) -> Option<Flow>
    ensures { result ≡ flow_in (get (merge S.kind_is (parts_on iface (under sessions rests table.now.facts session).rows)) unit) }
{
    flow_of(&table.parts(session, iface), unit)
}

// An entry of a table's style, on all interfaces.
pub(crate) fn renew_everywhere<S: Style>(table: &ResvTable<S>, book: &mut Book, key: &EntryKey)
    requires few { length book.old.ifaces ≤ 16 }
    requires less { (i : ℕ) → IsNoMore (entry_in S.kind_is table.now.facts i key.now) (get book.old.entries (i, key.now)) }
    ensures entries { AreRenewed (is_key key.now) (entry_in S.kind_is table.now.facts) book.old.entries book.new.entries }
    ensures ifaces { book.new.ifaces ≡ book.old.ifaces }
{
    look_at(book);
    for iface in 0..IFACES {
        let now = flow_of(&table.parts(key.session, iface), key.unit);
        renew(book, iface, key, now);
    }
}

// The entries of the units of names on an interface, by the parts of their session there.
pub(crate) fn renew_names<S: Style>(
    parts: &Parts,
    book: &mut Book,
    session: Session,
    iface: u8,
    names: &Senders,
)
    requires less { (k : EntryKey) → is_named S.kind_is session iface (keys names.now) iface k ≡ true → IsNoMore (flow_in (get parts.now k.unit)) (get book.old.entries (iface, k)) }
    ensures entries { AreRenewed (is_named S.kind_is session iface (keys names.now)) (λ i k. flow_in (get parts.now k.unit)) book.old.entries book.new.entries }
    ensures ifaces { book.new.ifaces ≡ book.old.ifaces }
{
    let style = S::kind();
    for name in names.as_slice() {
        let unit = S::unit_of(*name);
        let key = EntryKey {
            session,
            style,
            unit,
        };
        renew(book, iface, &key, flow_of(parts, unit));
    }
}
