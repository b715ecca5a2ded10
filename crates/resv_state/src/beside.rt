//! What an entry would be with another reservation in place of one.
ghost use Rattle.std.specs.Prelude.{◌≡◌, map};
ghost use Rattle.std.specs.Ordering.{eq_by_cmp};
ghost use Rattle.rsvp_base.specs.Orders.{units};
ghost use Rattle.resv_state.specs.Merging.{held_said, is_beside, joined_with};
ghost use Rattle.resv_state.specs.Walks.{held_under};

use crate::fact::Held;
use crate::walks::is_rest;
use rsvp_base::{Addr, Flow, Session, Unit};
use soft_table::{Fact, SoftTable};
use std::cmp::Ordering;

// Whether two units are one.
fn is_unit(a: Unit, b: Unit) -> bool
    ensures { result ≡ eq_by_cmp units.cmp a b }
{
    a.cmp(&b) == Ordering::Equal
}

// Whether a reservation has the interface and the unit of a key, and another next hop.
fn is_beside(key: &((u8, Addr), Unit), other: &((u8, Addr), Unit)) -> bool
    ensures { result ≡ is_beside key.now other.now }
{
    let ((iface, _), unit) = *key;
    let ((at, _), second) = *other;
    iface == at && is_unit(unit, second) && !is_rest(key, other)
}

// The join of a flow with those of a session's reservations on the interface and of the unit of a key, but for the one of
// the key itself.
pub(crate) fn join_beside(
    table: &SoftTable<Held>,
    session: Session,
    key: &((u8, Addr), Unit),
    flow: Flow,
) -> Flow
    ensures { result ≡ joined_with key.now flow (map held_said (held_under session table.now.facts)) }
{
    let mut joined = flow;
    for held in table.of_session(session) {
        let (_, rest) = held.key();
        if is_beside(key, &rest) {
            joined = flow_merge::join(&joined, &held.fact.part.flow);
        }
    }
    joined
}
