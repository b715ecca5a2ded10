//! A reservation that stands is renewed; another one takes its place, or is refused.
ghost use Rattle.std.specs.Prelude.{◌≡◌, ◌≤◌, ◌<◌, [], ℕ, length, option_and_then};
ghost use Rattle.admission_book.specs.Within.{IsWithin};
ghost use Rattle.resv_state.specs.Resvs.{AreOfStyle, asked_in, resv_key, wish_kept};
ghost use Rattle.resv_state.specs.declared.fact.ResvFact.{ResvFact};
ghost use Rattle.rsvp_base.specs.Table.{changed, put_in};
ghost use Rattle.style_rules.specs.Parts.{IsOfStyle};
ghost use Rattle.router_rules.specs.Facts.{Facts, resvs_of};
ghost use Rattle.router_rules.specs.NodeConfig.{NodeConfig};
ghost use Rattle.router_state.specs.State.{resv_at};
ghost use Rattle.resv_admission.specs.Kept.{IsBookOf, MovesWith};
ghost use Rattle.resv_admission.specs.Placing.{IsBookAmong, chosen, placed_in};
ghost use Rattle.resv_admission.specs.declared.placing.Placed.TheVariants.{Taken};
ghost use Rattle.resv_admission.specs.Standing.{IsQuiet, is_news};
ghost use Rattle.resv_admission.specs.Units.{asked_fact};

use crate::placing::{Placed, place};
use crate::unit::Asker;
use admission_book::Book;
use resv_state::{ResvFact, ResvTable};
use rsvp_base::{Addr, Part};
use style_rules::Style;

// Who wants to hear that the reservation stands: a Resv that wants no confirmation leaves the wish of an earlier one.
fn confirm_of(asker: &Asker, old: &Option<ResvFact>) -> Option<Addr>
    ensures { result ≡ wish_kept asker.now.confirm (option_and_then (λ (f : ResvFact). f.confirm) old.now) }
{
    match asker.confirm {
        Some(addr) => Some(addr),
        None => confirm_in(old),
    }
}

// That of a reservation, if there is one.
fn confirm_in(old: &Option<ResvFact>) -> Option<Addr>
    ensures { result ≡ option_and_then (λ (f : ResvFact). f.confirm) old.now }
{
    match old {
        Some(fact) => fact.confirm,
        None => None,
    }
}

// What holds of every book.
fn look(book: &Book)
    ensures { IsWithin book.now }
{
    book.held(0);
}

// A part that is asked for takes its place, as `place` has it. A reservation that stands as it is asked for is only renewed: the
// flow of its entry stays, so that nothing is merged for it and the book is not asked. `news` is set where what stands is
// another reservation than before, or one more.
pub(crate) fn place_or_renew<S: Style>(
    table: &mut ResvTable<S>,
    book: &mut Book,
    asker: &Asker,
    part: &Part,
    news: &mut bool,
) -> Placed
    requires style { IsOfStyle S.kind_is part.now }
    requires some { 1 ≤ asker.now.left }
    requires pulled { table.old.dead.rows ≡ [] }
    requires exists { asker.now.iface < length book.old.ifaces }
    requires kept { IsBookAmong S.kind_is table.old.facts book.old.entries }
    ensures style { AreOfStyle S.kind_is table.old.facts }
    ensures result { let fact = asked_in S.kind_is table.old.facts (asked_fact asker.now part.now) in
        (p : NodeConfig) (c : ℕ) (f : Facts) → p.ifaces ≡ book.old.ifaces → resvs_of S.kind_is f ≡ changed (resv_at c) table.old.facts
        → IsBookOf f book.old.entries → result ≡ placed_in p S.kind_is c fact asker.now.left f }
    ensures table { let fact = asked_in S.kind_is table.old.facts (asked_fact asker.now part.now) in
        table.new ≡ record table.old { facts = chosen result (put_in table.old.facts (resv_key S.kind_is fact) (fact, asker.now.left)) table.old.facts } }
    ensures book { MovesWith S.kind_is table.old.facts table.new.facts book.old.entries book.new.entries }
    ensures ifaces { book.new.ifaces ≡ book.old.ifaces }
    ensures unchanged { (result ≡ Taken → ⊥) → book.new ≡ book.old }
    ensures quiet { IsQuiet news.old news.new table.old.facts table.new.facts }
{
    look(book);
    table.limits();
    if table.renew(
        asker.session,
        asker.iface,
        asker.next,
        part,
        asker.confirm,
        asker.left,
    ) {
        return Placed::Taken;
    }
    let unit = part.unit(S::kind());
    let old = table.find(asker.session, asker.iface, asker.next, unit);
    let fact = ResvFact {
        session: asker.session,
        iface: asker.iface,
        next: asker.next,
        part: part.copy(),
        confirm: confirm_of(asker, &old),
    };
    let placed = place(table, book, fact, asker.left);
    note_news(placed, news);
    placed
}

// Something that took its place is new.
fn note_news(placed: Placed, news: &mut bool)
    ensures { news.new ≡ is_news placed news.old }
{
    if let Placed::Taken = placed {
        *news = true;
    }
}
