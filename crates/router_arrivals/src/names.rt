//! The wants of a fixed filter, a unit for each sender.
ghost use Rattle.std.specs.Prelude.{◌≡◌, ◌↔◌, false, Bool, not, nat_le, length, IsErr, OnErr, OnOk};
ghost use Rattle.std.specs.List.{filter, list_any};
ghost use Rattle.std.specs.Ordering.{eq_by_cmp};
ghost use Rattle.rsvp_base.specs.Orders.{sessions, units};
ghost use Rattle.rsvp_base.specs.SessionLimits.{IsWithinSessionLimits, has_room_at};
ghost use Rattle.rsvp_base.specs.Table.{size, with_rows};
ghost use Rattle.rsvp_base.specs.TokenBucket.{TokenBucket};
ghost use Rattle.rsvp_base.specs.Under.{under};
ghost use Rattle.rsvp_base.specs.declared.style.StyleKind.TheVariants.{Fixed};
ghost use Rattle.rsvp_base.specs.declared.style.Unit.TheVariants.{Of};
ghost use Rattle.rsvp_messages.specs.Units.{only};
ghost use Rattle.router_rules.specs.Calls.{wanted};
ghost use Rattle.local_state.specs.Wants.{want_row};
ghost use Rattle.router_arrivals.specs.Asked.{fixed_row, is_new};

use local_state::{LocalWant, LocalWants};
use rsvp_base::{Flow, Full, Part, Sender, Senders, Session, StyleKind, Unit};

// A session has at most so many units.
const UNITS: usize = 16;

// Puts a unit for each sender. `Full` exactly where they have not all room; nothing changes then.
pub(crate) fn put_each(
    wants: &mut LocalWants,
    session: Session,
    names: &Senders,
    flow: Flow,
    confirm: bool,
) -> Result<(), Full>
    ensures ok { OnOk result (wants.new ≡ with_rows wants.old (wanted session Fixed names.now flow confirm)) }
    ensures full { IsErr result ↔ (has_room_at units (with_rows wants.old (wanted session Fixed names.now flow confirm)) session ≡ false) }
    ensures err { OnErr result (wants.new ≡ wants.old) }
{
    if !have_room(wants, session, names) {
        return Err(Full);
    }
    // The first says whether the session has room; the others are within its units.
    let list = names.as_slice();
    for name in list {
        wants.put(fixed_want(session, *name, flow, confirm))?;
    }
    Ok(())
}

// What a fixed filter asks for of one sender.
fn fixed_want(session: Session, name: Sender, flow: Flow, confirm: bool) -> LocalWant
    ensures { want_row result ≡ fixed_row session flow confirm name }
{
    LocalWant {
        session,
        unit: Unit::Of(name),
        style: StyleKind::Fixed,
        part: Part {
            senders: only(name),
            flow,
        },
        confirm,
    }
}

// The list of one sender.
fn only(name: Sender) -> Senders
    ensures { result ≡ only name }
{
    let mut names = Senders::new();
    let Ok(()) = names.insert(name) else {
        unreachable!();
    };
    names
}

// Whether the session has at most 16 units with those of these senders.
fn have_room(wants: &LocalWants, session: Session, names: &Senders) -> bool
    ensures room { (flow : TokenBucket) (confirm : Bool) → result ≡ nat_le (size (under sessions units (with_rows wants.now (wanted session Fixed names.now flow confirm)) session)) 16 }
    // What holds of every table.
    ensures within { IsWithinSessionLimits units wants.now }
{
    let mine = wants.of(session);
    count_new(mine, names.as_slice()) <= UNITS - mine.len()
}

// How many of the senders have no unit among these.
fn count_new(mine: &[LocalWant], names: &[Sender]) -> usize
    ensures { result ≡ length (filter (is_new mine.now) names.now) }
{
    names
        .iter()
        .filter(|name| !has_unit(mine, Unit::Of(**name)))
        .count()
}

// Whether one of these is of the unit.
fn has_unit(mine: &[LocalWant], unit: Unit) -> bool
    ensures { result ≡ list_any (λ w. eq_by_cmp units.cmp unit w.unit) mine.now }
{
    mine.iter().any(|want| unit == want.unit)
}
