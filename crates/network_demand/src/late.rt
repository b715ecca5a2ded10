//! Wants that starve, since a node came late with another style.
ghost use Rattle.std.specs.Prelude.{◌≡◌, ◌++◌, ◌∷◌, [], not, cond, IfOk, OnOk};
ghost use Rattle.std.specs.List.{filter, flat_map, list_any};
ghost use Rattle.std.specs.Ordering.{eq_by_cmp};
ghost use Rattle.rsvp_base.specs.Orders.{sessions, styles};
ghost use Rattle.tree_model.specs.Networks.{node_of};
ghost use Rattle.network_demand.specs.Late.{begun_with, begun_without, comes_after, is_begun_of, is_of_other, starved, starved_at, starved_by, starved_of, starves};

use crate::askers::{Asker, copy_of};
use rsvp_base::{NoMemory, Session, StyleKind};
use std::alloc::Global;
use tree_model::LocalWant;
use tree_routing::End;

/// A node that asks for a session.
#[derive(Clone, Copy, Debug, PartialEq, Eq)]
pub struct Begun {
    /// The number of the node.
    pub node: u16,
    pub session: Session,
    /// The style of what it asks for.
    pub style: StyleKind,
}

/// A want that starves.
#[derive(Drop)]
pub struct Starved {
    /// Who came late with another style.
    pub late: Begun,
    pub want: LocalWant,
    /// The number of the end, one of the late node, at which the want is refreshed no longer.
    pub end: usize,
}

/// A node begins to ask, behind those who ask. One that asks for the session already keeps its place. `NoMemory`: there was no room
/// for it.
pub fn begin(begun: &mut Vec<Begun>, new: Begun) -> Result<(), NoMemory>
    ensures { OnOk result (begun.new.items ≡ begun_with begun.old.items new) }
{
    if !asks(begun.as_slice(), new.node, new.session) {
        begun.push(new)?;
    }
    Ok(())
}

/// A node asks for a session no longer.
pub fn quit(begun: &mut Vec<Begun>, node: u16, session: Session)
    ensures { begun.new.items ≡ begun_without begun.old.items node session }
{
    begun.retain(|one| !is_begun_of(one, node, session));
}

/// What starves, by who came late: among those who ask, in the order in which they began. `NoMemory`: there was no room for it.
pub(crate) fn starved_among(
    alloc: Global,
    ends: &[End],
    begun: &[Begun],
    askers: &[Asker],
) -> Result<Vec<Starved>, NoMemory>
    ensures { IfOk result (λ found. found.items ≡ starved ends.now begun.now askers.now) }
{
    let mut found = Vec::new(alloc);
    for late in begun {
        add_starved_by(&mut found, ends, begun, late, askers)?;
    }
    Ok(found)
}

// Adds what starves since this node came late.
fn add_starved_by(
    found: &mut Vec<Starved>,
    ends: &[End],
    begun: &[Begun],
    late: &Begun,
    askers: &[Asker],
) -> Result<(), NoMemory>
    ensures { OnOk result (found.new.items ≡ found.old.items ++ starved_by ends.now begun.now askers.now late.now) }
{
    for asker in askers {
        add_starved_of(found, ends, begun, late, asker)?;
    }
    Ok(())
}

// Adds the ends at which a want starves since this node came late.
fn add_starved_of(
    found: &mut Vec<Starved>,
    ends: &[End],
    begun: &[Begun],
    late: &Begun,
    asker: &Asker,
) -> Result<(), NoMemory>
    ensures { OnOk result (found.new.items ≡ found.old.items ++ starved_of ends.now begun.now late.now asker.now) }
{
    for end in asker.ends.as_slice() {
        add_if(
            found,
            late,
            &asker.want,
            *end,
            starves(ends, begun, late, &asker.want, *end),
        )?;
    }
    Ok(())
}

// Adds a want that starves at an end, if it does.
fn add_if(
    found: &mut Vec<Starved>,
    late: &Begun,
    want: &LocalWant,
    end: usize,
    holds: bool,
) -> Result<(), NoMemory>
    ensures { OnOk result (found.new.items ≡ found.old.items ++ cond holds ((record { late = late.now; want = want.now; end = end }) ∷ []) []) }
{
    if holds {
        found.push(Starved {
            late: *late,
            want: copy_of(want),
            end,
        })?;
    }
    Ok(())
}

// Whether one who asks lets a want starve at an end that owes something for it.
fn starves(ends: &[End], begun: &[Begun], late: &Begun, want: &LocalWant, end: usize) -> bool
    ensures { result ≡ starves ends.now begun.now late.now want.now end }
{
    is_of_other(late, want)
        && (node_of(ends, end) == late.node && comes_after(begun, late, want.node))
}

// Whether one who asks does so for the session of a want in another style.
fn is_of_other(late: &Begun, want: &LocalWant) -> bool
    ensures { result ≡ is_of_other late.now want.now }
{
    is_session(late.session, want.session) && !is_style(late.style, want.style)
}

// Whether a node asked for the session before this one did.
fn comes_after(begun: &[Begun], late: &Begun, node: u16) -> bool
    ensures { result ≡ comes_after begun.now late.now node }
{
    for one in begun {
        if is_begun_of(one, late.node, late.session) {
            return false;
        }
        if is_begun_of(one, node, late.session) {
            return true;
        }
    }
    false
}

// Whether a node asks for a session.
fn asks(begun: &[Begun], node: u16, session: Session) -> bool
    ensures { result ≡ list_any (is_begun_of node session) begun.now }
{
    for one in begun {
        if is_begun_of(one, node, session) {
            return true;
        }
    }
    false
}

// Whether it is this node, and asks for this session.
fn is_begun_of(one: &Begun, node: u16, session: Session) -> bool
    ensures { result ≡ is_begun_of node session one.now }
{
    one.node == node && is_session(session, one.session)
}

fn is_session(session: Session, other: Session) -> bool
    ensures { result ≡ eq_by_cmp sessions.cmp session other }
{
    session == other
}

fn is_style(style: StyleKind, other: StyleKind) -> bool
    ensures { result ≡ eq_by_cmp styles.cmp style other }
{
    style == other
}

// The node of an end; 0 where there is no such end.
fn node_of(ends: &[End], end: usize) -> u16
    ensures { result ≡ node_of ends.now end }
{
    match ends.get(end) {
        Some(end) => end.node,
        None => 0,
    }
}
