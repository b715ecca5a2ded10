//! The reservations beside an entry.
ghost use Rattle.std.specs.Prelude.{◌≡◌};
ghost use Rattle.std.specs.List.{list_any};
ghost use Rattle.std.specs.Ordering.{eq_by_cmp};
ghost use Rattle.rsvp_base.specs.Orders.{sessions, units};
ghost use Rattle.rsvp_base.specs.Styles.{part_unit};
ghost use Rattle.rsvp_base.specs.Under.{under};
ghost use Rattle.resv_state.specs.Walks.{rests};
ghost use Rattle.traffic_control.specs.Policing.{passes_by};

use resv_state::{ResvFact, ResvTable};
use rsvp_base::{Part, Session, Unit};
use soft_table::Finger;
use std::cmp::Ordering;
use style_rules::Style;

// At most so many reservations of a style.
const FACTS: usize = 1024;

/// Whether a reservation of the session shares a sender with an entry, is not merged into it, and has a flow for which the
/// entry's cannot stand.
pub(crate) fn is_passed<S: Style>(
    table: &ResvTable<S>,
    session: Session,
    unit: Unit,
    iface: u8,
    part: &Part,
) -> bool
    ensures { result ≡ list_any (passes_by iface unit part.now) (under sessions rests table.now.facts session).rows }
{
    // The proof sees here what holds of every table.
    table.limits();
    let mut finger = Finger::default();
    let mut next = table.first(session);
    for k in 0..FACTS {
        let Some(fact) = next else {
            return false;
        };
        if passes_by::<S>(iface, unit, part, fact) {
            return true;
        }
        next = table.after(fact, &mut finger);
    }
    false
}

// Whether one does.
fn passes_by<S: Style>(iface: u8, unit: Unit, part: &Part, fact: &ResvFact) -> bool
    ensures { result ≡ passes_by iface unit part.now (((fact.now.iface, fact.now.next), part_unit S.kind_is fact.now.part), (fact.now, 0)) }
{
    !(fact.iface == iface && is_unit(fact.part.unit(S::kind()), unit))
        && !part.senders.cut(&fact.part.senders).is_empty()
        && !flow_merge::le(&fact.part.flow, &part.flow)
}

// Whether two units are one.
fn is_unit(a: Unit, b: Unit) -> bool
    ensures { result ≡ eq_by_cmp units.cmp a b }
{
    a.cmp(&b) == Ordering::Equal
}
