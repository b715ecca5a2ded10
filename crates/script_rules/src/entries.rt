//! Of each node the entries of its wants: the slot of each want, and what the want is told by.
ghost use Rattle.std.specs.Prelude.{◌≡◌, ◌<◌, ◌∷◌, ◌++◌, ℕ, [], None, OnErr, OnOk, cond, get_or, length, map, nat_eq, not, set};
ghost use Rattle.std.specs.List.{filter, list_all};
ghost use Rattle.std.specs.Ordering.{eq_by_cmp};
ghost use Rattle.rsvp_base.specs.Orders.{styles as by_style, units as by_unit};
ghost use Rattle.script_rules.specs.Entries.{cleared, fits, is_meant, is_of_session, is_one, entries_in};

use crate::session::is_session;
use rsvp_base::{NoMemory, Session, StyleKind, Unit};
use std::alloc::Global;
use std::cmp::Ordering;
use tree_model::LocalWant;

/// The entry of a want of a node: what the want is told by, and its slot.
#[derive(Clone, Copy)]
pub(crate) struct Entry {
    pub(crate) session: Session,
    pub(crate) style: StyleKind,
    pub(crate) unit: Unit,
    pub(crate) slot: usize,
}

/// Which wants of a node are meant: all of a session, or the one of a style and unit.
#[derive(Clone, Copy)]
pub(crate) struct Which {
    pub(crate) session: Session,
    pub(crate) one: Option<(StyleKind, Unit)>,
}

// Whether two styles are the same.
fn is_style(style: StyleKind, other: StyleKind) -> bool
    ensures { result ≡ eq_by_cmp by_style.cmp style other }
{
    style == other
}

// Whether two units are one.
fn is_unit(unit: Unit, other: Unit) -> bool
    ensures { result ≡ eq_by_cmp by_unit.cmp unit other }
{
    unit.cmp(&other) == Ordering::Equal
}

// Whether a style and unit are these, where some are named.
fn is_one(one: Option<(StyleKind, Unit)>, style: StyleKind, unit: Unit) -> bool
    ensures { result ≡ is_one one style unit }
{
    match one {
        Some((named, its)) => is_style(named, style) && is_unit(its, unit),
        None => true,
    }
}

// Whether a want is meant.
fn is_meant(which: Which, entry: &Entry) -> bool
    ensures { result ≡ is_meant which entry.now }
{
    is_session(which.session, entry.session) && is_one(which.one, entry.style, entry.unit)
}

/// Whether a want is of the session.
pub(crate) fn is_of_session(session: Session, entry: &Entry) -> bool
    ensures { result ≡ is_of_session session entry.now }
{
    is_session(session, entry.session)
}

/// How many of the wants are of the session.
pub(crate) fn count_of(entries: &[Entry], session: Session) -> usize
    ensures { result ≡ length (filter (is_of_session session) entries.now) }
{
    entries
        .iter()
        .filter(|entry| is_of_session(session, entry))
        .count()
}

/// Whether each of the wants is not of the session, or of this style.
pub(crate) fn fit_in(entries: &[Entry], session: Session, style: StyleKind) -> bool
    ensures { result ≡ list_all (fits session style) entries.now }
{
    entries.iter().all(|entry| !is_of_session(session, entry) || is_style(entry.style, style))
}

/// The entries of a node.
pub(crate) fn at(entries: &[Vec<Entry>], node: u16) -> &[Entry]
    ensures { result.now ≡ entries_in (map (λ v. v.items) entries.now) node }
{
    let node = usize::from(node);
    if node < entries.len() {
        entries[node].as_slice()
    } else {
        &[]
    }
}

// Empties a slot.
fn empty(slots: &mut Vec<Option<LocalWant>>, slot: usize)
    ensures { slots.new.items ≡ set slots.old.items slot None }
{
    if slot < slots.len() {
        slots[slot] = None;
    }
}

/// Empties the slots of those that are meant.
pub(crate) fn clear(slots: &mut Vec<Option<LocalWant>>, entries: &[Entry], which: Which)
    ensures { slots.new.items ≡ cleared which slots.old.items entries.now }
{
    match entries {
        [] => {}
        [first, others @ ..] => {
            if is_meant(which, first) {
                empty(slots, first.slot);
            }
            clear(slots, others, which);
        }
    }
}

/// Strikes the entries of a node that are meant.
pub(crate) fn strike(entries: &mut Vec<Vec<Entry>>, node: u16, which: Which)
    ensures { map (λ v. v.items) entries.new.items ≡ set (map (λ v. v.items) entries.old.items) node (filter (λ s. not (is_meant which s)) (entries_in (map (λ v. v.items) entries.old.items) node)) }
{
    let node = usize::from(node);
    if node < entries.len() {
        entries[node].retain(|entry| !is_meant(which, entry));
    }
}

// Makes lists up to that of a node.
fn reach(alloc: Global, entries: &mut Vec<Vec<Entry>>, node: usize) -> Result<(), NoMemory>
    ensures same { (n : ℕ) → entries_in (map (λ v. v.items) entries.new.items) n ≡ entries_in (map (λ v. v.items) entries.old.items) n }
    ensures ok { OnOk result (node < length entries.new.items) }
{
    while entries.len() <= node {
        entries.push(Vec::new(alloc))?;
    }
    Ok(())
}

// Puts an entry behind those of a node.
fn append(entries: &mut Vec<Vec<Entry>>, node: usize, entry: Entry) -> Result<(), NoMemory>
    requires { node < length entries.old.items }
    ensures ok { OnOk result (map (λ v. v.items) entries.new.items ≡ set (map (λ v. v.items) entries.old.items) node (entries_in (map (λ v. v.items) entries.old.items) node ++ entry ∷ [])) }
    ensures err { OnErr result (map (λ v. v.items) entries.new.items ≡ map (λ v. v.items) entries.old.items) }
{
    entries[node].push(entry)?;
    Ok(())
}

/// Puts an entry behind those of a node. For want of memory nothing changes.
pub(crate) fn put_down(
    alloc: Global,
    entries: &mut Vec<Vec<Entry>>,
    node: u16,
    entry: Entry,
) -> Result<(), NoMemory>
    ensures ok { OnOk result ((n : ℕ) → entries_in (map (λ v. v.items) entries.new.items) n ≡ entries_in (map (λ v. v.items) entries.old.items) n ++ cond (nat_eq node n) (entry ∷ []) []) }
    ensures err { OnErr result ((n : ℕ) → entries_in (map (λ v. v.items) entries.new.items) n ≡ entries_in (map (λ v. v.items) entries.old.items) n) }
{
    let node = usize::from(node);
    reach(alloc, entries, node)?;
    append(entries, node, entry)
}
