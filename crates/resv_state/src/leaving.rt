//! Names leave reservations.
ghost use Rattle.std.specs.Prelude.{◌≡◌, false, true, Some, ℕ, [], ◌∷◌, cond};
ghost use Rattle.std.specs.FinMap.Entries.{find};
ghost use Rattle.std.specs.Option.{option_map, option_copied};
ghost use Rattle.rsvp_base.specs.Rows.{AreRows};
ghost use Rattle.rsvp_base.specs.Sets.{set_of};
ghost use Rattle.rsvp_base.specs.Table.{changed_rows, kept, without};
ghost use Rattle.style_rules.specs.Lines.{LineKey, line_keys};
ghost use Rattle.style_rules.specs.Parts.{has_name, part_kept, part_of};
ghost use Rattle.soft_table.specs.Facts.{facts_by, IsInOrder};
ghost use Rattle.resv_state.specs.Resvs.{held_key, held_row, dead_row};
ghost use Rattle.resv_state.specs.Walks.{rests};
ghost use Rattle.resv_state.specs.Leaving.{stays, has_one, held_left, held_lessened, held_has_one};
ghost use Rattle.resv_state.specs.declared.fact.Held.{Held};

use crate::fact::{Held, ResvFact};
use rsvp_base::{Addr, Flow, Part, Sender, Senders, Session, Unit};
use soft_table::{Fact, SoftTable};

// Without the name, unless it may stay.
pub(crate) fn keep_if(names: &mut Senders, name: Sender, stays: bool)
    ensures { names.new ≡ cond stays names.old (without names.old name) }
{
    if !stays {
        names.remove(name);
    }
}

// The senders that are not among those that go.
fn without_all(senders: &Senders, gone: &Senders) -> Senders
    ensures { result ≡ kept (stays gone.now) senders.now }
{
    let mut left = senders.copy();
    for name in senders.as_slice() {
        keep_if(&mut left, *name, !gone.has(*name));
    }
    left
}

// The part of these senders, if there is one.
pub(crate) fn part_of(senders: Senders, flow: Flow) -> Option<Part>
    ensures { result ≡ part_of senders flow }
{
    if senders.is_empty() {
        return None;
    }
    Some(Part { senders, flow })
}

// What is left of a part, if a sender is left.
fn part_without(part: &Part, gone: &Senders) -> Option<Part>
    ensures { result ≡ part_kept (stays gone.now) part.now }
{
    part_of(without_all(&part.senders, gone), part.flow)
}

// What is left of a reservation.
fn less(held: &Held, gone: &Senders) -> Option<Held>
    ensures { result ≡ held_left gone.now held.now }
{
    let part = part_without(&held.fact.part, gone)?;
    Some(Held {
        unit: held.unit,
        fact: ResvFact {
            session: held.fact.session,
            iface: held.fact.iface,
            next: held.fact.next,
            part,
            confirm: held.fact.confirm,
        },
    })
}

// Whether a part has one of the senders.
fn has_one(part: &Part, gone: &Senders) -> bool
    ensures { result ≡ has_one gone.now part.now }
{
    !part.senders.cut(gone).is_empty()
}

// The rest of a reservation's key.
pub(crate) fn rest_of(held: Option<&Held>) -> Option<((u8, Addr), Unit)>
    ensures { result ≡ option_map (λ (h : Held). (held_key h).1) (option_copied held.entry) }
{
    match held {
        Some(held) => {
            let (_, rest) = held.key();
            Some(rest)
        }
        None => None,
    }
}

// The list of one sender.
pub(crate) fn only(name: Sender) -> Senders
    ensures { result ≡ set_of (name ∷ []) }
{
    let mut names = Senders::new();
    let Ok(()) = names.insert(name) else {
        unreachable!();
    };
    names
}

// The senders leave the reservation of a key, which goes where none is left. Whether it had one of them.
pub(crate) fn lessen(
    table: &mut SoftTable<Held>,
    session: Session,
    rest: ((u8, Addr), Unit),
    gone: &Senders,
) -> bool
    requires rising { AreRows line_keys held_row table.old.facts }
    requires waiting { AreRows line_keys dead_row table.old.dead }
    requires named { (e : Held × ℕ) → find line_keys.cmp (session, rest) (facts_by held_key table.old.facts) ≡ Some e → has_name e.0.fact.part ≡ true }
    ensures facts { facts_by held_key table.new.facts ≡ changed_rows (held_lessened (session, rest) gone.now) (facts_by held_key table.old.facts) }
    ensures order { IsInOrder rests held_key table.new }
    ensures dead { table.new.dead ≡ table.old.dead }
    ensures room { table.new.room ≡ table.old.room }
    ensures had { result ≡ held_has_one gone.now (find line_keys.cmp (session, rest) (facts_by held_key table.old.facts)) }
    ensures unchanged { result ≡ false → table.new ≡ table.old }
{
    let Some(held) = table.find(session, rest) else {
        return false;
    };
    if !has_one(&held.fact.part, gone) {
        return false;
    }
    match less(held, gone) {
        Some(left) => {
            table.replace(left);
            true
        }
        None => {
            table.remove(session, rest);
            true
        }
    }
}
