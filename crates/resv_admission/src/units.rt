//! The units of a Resv, one after another.
ghost use Rattle.std.specs.Prelude.{◌≡◌, ◌≤◌, ◌<◌, ℕ, [], ◌∷◌, true, false, length, map, slice_get, Some};
ghost use Rattle.std.specs.Option.{option_map};
ghost use Rattle.rsvp_base.specs.Styles.{name_of};
ghost use Rattle.rsvp_base.specs.Table.{changed, empty, has};
ghost use Rattle.rsvp_base.specs.declared.session.Sender.{Sender};
ghost use Rattle.rsvp_base.specs.declared.style.Unit.TheVariants.{One};
ghost use Rattle.rsvp_messages.specs.Units.{ask_style, asked_units, fixed_unit, only};
ghost use Rattle.router_rules.specs.Asking.{nothing_taken, refusal, take_units, Asker as AskerOf};
ghost use Rattle.router_rules.specs.Facts.{Facts, resvs_of};
ghost use Rattle.router_rules.specs.NodeConfig.{NodeConfig};
ghost use Rattle.router_state.specs.State.{resv_at};
ghost use Rattle.resv_admission.specs.Kept.{IsBookOf};
ghost use Rattle.resv_admission.specs.Placing.{IsBookAmong};
ghost use Rattle.resv_admission.specs.Standing.{parts_in};
ghost use Rattle.resv_admission.specs.Units.{IsSoFar, asked_unit, asker_at, refusal_of};

use crate::matching::Matching;
use crate::refusals::Refusal;
use crate::unit::{Asker, Taken, Wanted, take_unit};
use admission_book::Book;
use resv_state::ResvTable;
use rsvp_base::{Flow, Part, Sender, Senders, Unit};
use rsvp_messages::Ask;
use style_rules::Style;

// How many units are asked for, at most 16.
fn count_of(ask: &Ask) -> usize
    ensures count { result ≡ length (asked_units ask.now) }
    ensures few { result ≤ 16 }
{
    match ask {
        Ask::Wild { .. } => 1,
        Ask::Fixed(list) => list.len(),
        Ask::Shared(_) => 1,
    }
}

// The k-th unit that is asked for, from 0.
fn unit_at(ask: &Ask, k: usize) -> Option<Wanted>
    ensures { option_map asked_unit result ≡ slice_get (asked_units ask.now) k }
{
    match ask {
        Ask::Wild { scope, flow } => first_of(k, wild_unit(scope, *flow)),
        Ask::Fixed(list) => fixed_unit(list.at(k)),
        Ask::Shared(part) => first_of(k, shared_unit(part)),
    }
}

// The only unit, at place 0.
fn first_of(k: usize, wanted: Wanted) -> Option<Wanted>
    ensures { option_map asked_unit result ≡ slice_get (asked_unit wanted ∷ []) k }
{
    if k == 0 { Some(wanted) } else { None }
}

fn wild_unit(scope: &Option<Senders>, flow: Flow) -> Wanted
    ensures { result ≡ record { unit = One; names = scope.now; flow = flow } }
{
    let names = match scope {
        Some(list) => Some(list.copy()),
        None => None,
    };
    Wanted {
        unit: Unit::One,
        names,
        flow,
    }
}

fn shared_unit(part: &Part) -> Wanted
    ensures { result ≡ record { unit = One; names = Some part.now.senders; flow = part.now.flow } }
{
    Wanted {
        unit: Unit::One,
        names: Some(part.senders.copy()),
        flow: part.flow,
    }
}

fn fixed_unit(row: Option<(Sender, Flow)>) -> Option<Wanted>
    ensures { option_map asked_unit result ≡ option_map fixed_unit row }
{
    match row {
        Some((sender, flow)) => Some(Wanted {
            unit: Unit::Of(sender),
            names: Some(only(sender)),
            flow,
        }),
        None => None,
    }
}

// The list of one sender.
fn only(sender: Sender) -> Senders
    ensures { result ≡ only sender }
{
    let mut names = Senders::new();
    let Ok(()) = names.insert(sender) else {
        unreachable!();
    };
    names
}

/// The units of what is asked for, one after another, each tested against what the ones before it left. The ask is of the
/// table's style, and `all` lists the senders that match by the names of the style. What became of them is left in `done`, in
/// place of what was there.
pub fn take_units<S: Style>(
    table: &mut ResvTable<S>,
    book: &mut Book,
    asker: &Asker,
    all: &Matching,
    ask: &Ask,
    done: &mut Taken,
)
    requires style { ask_style ask.now ≡ S.kind_is }
    requires listed { (x : Sender) → has all.now x ≡ true → name_of S.kind_is x ≡ x }
    requires some { 1 ≤ asker.now.left }
    requires pulled { table.old.dead.rows ≡ [] }
    requires exists { asker.now.iface < length book.old.ifaces }
    requires kept { IsBookAmong S.kind_is table.old.facts book.old.entries }
    ensures taken { (p : NodeConfig) (c : ℕ) (f : Facts) → p.ifaces ≡ book.old.ifaces → resvs_of S.kind_is f ≡ changed (resv_at c) table.old.facts
        → IsBookOf f book.old.entries
        → IsSoFar p c S.kind_is asker.now f table.new.facts book.new.entries done.new
        (take_units p (asker_at c S.kind_is asker.now) f all.now (nothing_taken (resvs_of S.kind_is f) []) (asked_units ask.now)) }
    ensures dead { table.new.dead ≡ table.old.dead }
    ensures ifaces { book.new.ifaces ≡ book.old.ifaces }
    ensures quiet { done.new.news ≡ false → parts_in table.new.facts ≡ parts_in table.old.facts }
{
    done.clear();
    for k in 0..count_of(ask) {
        let Some(wanted) = unit_at(ask, k) else {
            unreachable!();
        };
        take_unit(table, book, asker, all, wanted, done);
    }
}

/// The units of what is asked for, each refused alike, and none taken: no path information, or a conflicting style (RFC 2205,
/// appendix B, error codes 03 and 05). What became of them is left in `done`, in place of what was there.
pub fn refuse_units(ask: &Ask, code: u8, value: u16, done: &mut Taken)
    ensures errors { (p : NodeConfig) (o : AskerOf) → map (refusal_of p o) done.new.errors ≡ map (λ u. refusal p o false code value u.names u.flow) (asked_units ask.now) }
    ensures left_out { done.new.left_out ≡ false }
    ensures parts { done.new.parts ≡ empty }
{
    done.clear();
    for k in 0..count_of(ask) {
        let Some(wanted) = unit_at(ask, k) else {
            unreachable!();
        };
        done.errors.push(Refusal {
            in_place: false,
            code,
            value,
            names: wanted.names,
            flow: wanted.flow,
        });
    }
}
