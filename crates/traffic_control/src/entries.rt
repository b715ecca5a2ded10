//! The entries of an interface.
ghost use Rattle.std.specs.Prelude.{◌≡◌, ◌≤◌, ℕ, length, slice_get};
ghost use Rattle.rsvp_base.specs.Orders.{sessions};
ghost use Rattle.rsvp_base.specs.Under.{under};
ghost use Rattle.style_rules.specs.Merge.{merge};
ghost use Rattle.resv_state.specs.Merging.{parts_on};
ghost use Rattle.resv_state.specs.Resvs.{AreOfStyle};
ghost use Rattle.resv_state.specs.Walks.{rests};
ghost use Rattle.resv_admission.specs.Kept.{IsBookOf};
ghost use Rattle.router_rules.specs.Flags.{entries_of};
ghost use Rattle.router_state.specs.State.{Said, facts_of, table_in};
ghost use Rattle.router_state.specs.Whole.{state_of};

use crate::police::police_at;
use resv_state::ResvTable;
use router_rules::Entry;
use router_state::Tables;
use rsvp_base::{Session, StyleKind};
use style_rules::{Parts, Style};

/// The k-th entry of an interface's book by session, style and unit, from 0, with its flags. `None` exactly where k is not
/// below their number, which is at most 3,072. The book is that of the reservations.
pub fn entry_at(tables: &Tables, iface: u8, k: usize) -> Option<Entry>
    ensures entry { (c : ℕ) (said : Said) → IsBookOf (facts_of c (state_of tables.now said)) tables.now.book.entries
        → result ≡ slice_get (entries_of tables.now.config (facts_of c (state_of tables.now said)) iface) k }
    ensures few { (c : ℕ) (said : Said) → length (entries_of tables.now.config (facts_of c (state_of tables.now said)) iface) ≤ 3072 }
{
    // The proof sees here what holds of every table.
    let _wild = tables.wild.limits();
    let _fixed = tables.fixed.limits();
    let _shared = tables.shared.limits();
    let Some((key, _)) = tables.book.at(iface, k) else {
        return None;
    };
    let parts = parts_of(tables, key.style, key.session, iface);
    let Some(part) = parts.get(key.unit) else {
        return None;
    };
    let police = police_at(tables, iface, &key, part);
    Some(Entry {
        key,
        part: part.copy(),
        police,
    })
}

// The merge of a style's reservations of a session on an interface.
fn parts_of(tables: &Tables, style: StyleKind, session: Session, iface: u8) -> Parts
    ensures parts { (said : Said) → result ≡ merge style (parts_on iface (under sessions rests (table_in style (state_of tables.now said)) session).rows) }
    ensures styled { (said : Said) → AreOfStyle style (table_in style (state_of tables.now said)) }
{
    match style {
        StyleKind::Wild => parts_in(&tables.wild, session, iface),
        StyleKind::Fixed => parts_in(&tables.fixed, session, iface),
        StyleKind::Shared => parts_in(&tables.shared, session, iface),
    }
}

fn parts_in<S: Style>(table: &ResvTable<S>, session: Session, iface: u8) -> Parts
    ensures parts { result ≡ merge S.kind_is (parts_on iface (under sessions rests table.now.facts session).rows) }
    ensures styled { AreOfStyle S.kind_is table.now.facts }
{
    // The proof sees here that the table's reservations are of the style.
    table.limits();
    table.parts(session, iface)
}
