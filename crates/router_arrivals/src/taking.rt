//! A Resv arrives.
ghost use Rattle.std.specs.Prelude.{◌≡◌, ◌≤◌, ◌<◌, ℕ, [], true, false, length, map, None};
ghost use Rattle.rsvp_base.specs.Sets.{is_none};
ghost use Rattle.rsvp_base.specs.Styles.{name_of};
ghost use Rattle.rsvp_base.specs.Table.{empty, has};
ghost use Rattle.rsvp_base.specs.declared.session.Sender.{Sender};
ghost use Rattle.rsvp_messages.specs.Units.{ask_style};
ghost use Rattle.router_rules.specs.Asking.{act_resv, ask_of, asked_of, heard_of, style_value, taking, Asker as AskerOf, asker_of as asker_of_rule};
ghost use Rattle.router_rules.specs.Facts.{with_resvs};
ghost use Rattle.router_rules.specs.NodeConfig.{NodeConfig};
ghost use Rattle.router_rules.specs.declared.answers.Heard.TheVariants as heard;
ghost use Rattle.router_state.specs.State.{Said, facts_of};
ghost use Rattle.router_state.specs.Whole.{ArePulled, IsBooked, IsOfPlace, state_of};
ghost use Rattle.resv_admission.specs.Units.{asker_at, refusal_of};
ghost use Rattle.router_arrivals.specs.Taken.{AreFew, AreSameParts, IsAnswer, IsDone, taking_from};

use crate::matching::matching;
use crate::styles::style_conflict;
use resv_admission::{Asker, Matching, Refusals, Taken, refuse_units, take_units};
use router_aging::KnownSenders;
use router_rules::{Heard, Why};
use router_state::{Config, Tables};
use rsvp_base::{Addr, StyleKind};
use rsvp_messages::{Ask, ResvMsg};
use sent_state::ask_of;
use style_rules::Parts;

/// What came of a Resv: what became of its units, with the refusals in the order in which they go back to the next hop; what is
/// heard; and what was taken, as it is to be confirmed where the message wishes for that. Where it does not, nothing is said of
/// the last.
#[derive(Drop)]
pub struct Answer {
    pub done: Taken,
    pub heard: Heard,
    pub taken: Option<Ask>,
}

impl Answer {
    /// Nothing yet.
    pub fn new() -> Answer
        ensures { result ≡ record { done = record { errors = []; left_out = false; parts = empty; news = false }; heard = heard.Taken; taken = None } }
    {
        Answer {
            done: Taken::new(),
            heard: Heard::Taken,
            taken: None,
        }
    }
}

/// Who asks by a Resv that came by an interface.
pub fn asker_of(config: &Config, iface: u8, message: &ResvMsg) -> Asker
    ensures who { (c : ℕ) → asker_at c (ask_style message.now.ask) result ≡ asker_of_rule config.now c iface message.now }
    ensures some { 1 ≤ result.left }
{
    Asker {
        iface,
        session: message.session,
        next: message.hop.addr,
        confirm: message.confirm,
        left: config.lifetime(message.period),
    }
}

/// A Resv arrives by one of the node's interfaces: each of its units is taken, refused or left out, and the book is that of
/// the facts. It is refused whole where no sender of its session is known, or where the session has another style (RFC 2205,
/// appendix B, error codes 03 and 05). A unit that is refused or left out changes nothing. One that only refreshes what stands
/// merges nothing; where there is no other, each part stands as it did. What came of it is left in `answer`, in place of what
/// was there.
pub fn take_resv(tables: &mut Tables, iface: u8, message: &ResvMsg, answer: &mut Answer)
    requires booked { IsBooked tables.old }
    requires pulled { ArePulled tables.old }
    requires place { IsOfPlace tables.old }
    requires exists { iface < length tables.old.book.ifaces }
    ensures answer { (c : ℕ) (said : Said)
        → IsAnswer tables.old.config (asker_of_rule tables.old.config c iface message.now) answer.new (act_resv tables.old.config c iface message.now (facts_of c (state_of tables.old said))) }
    ensures facts { (c : ℕ) (said : Said) → facts_of c (state_of tables.new said) ≡ (act_resv tables.old.config c iface message.now (facts_of c (state_of tables.old said))).facts }
    ensures booked { IsBooked tables.new }
    ensures pulled { ArePulled tables.new }
    ensures ifaces { tables.new.book.ifaces ≡ tables.old.book.ifaces }
    ensures rest { tables.new ≡ record tables.old { wild = tables.new.wild; fixed = tables.new.fixed; shared = tables.new.shared; book = tables.new.book } }
    ensures quiet { answer.new.done.news ≡ false → AreSameParts (state_of tables.old empty) (state_of tables.new empty) }
{
    take_or_refuse(tables, iface, message, &mut answer.done);
    let style = style_of(&message.ask);
    note_taken(
        &mut answer.taken,
        message.confirm,
        style,
        &answer.done.parts,
    );
    answer.done.errors.sort();
    answer.heard = heard_of(&answer.done.errors, answer.done.left_out);
}

// Notes what was taken, where someone wants to hear of it. Where nobody does, nobody reads what stands there.
fn note_taken(taken: &mut Option<Ask>, confirm: Option<Addr>, style: StyleKind, parts: &Parts)
    ensures { (o : AskerOf) → o.confirm ≡ confirm → asked_of o taken.new o.confirm ≡ asked_of o (ask_of style parts.now) o.confirm }
{
    match confirm {
        Some(_) => put_taken(taken, style, parts),
        None => {}
    }
}

// Notes what was taken.
fn put_taken(taken: &mut Option<Ask>, style: StyleKind, parts: &Parts)
    ensures { taken.new ≡ ask_of style parts.now }
{
    *taken = ask_of(style, parts);
}

// The style of what is asked for.
pub(crate) fn style_of(ask: &Ask) -> StyleKind
    ensures { result ≡ ask_style ask.now }
{
    match ask {
        Ask::Wild { .. } => StyleKind::Wild,
        Ask::Fixed(_) => StyleKind::Fixed,
        Ask::Shared(_) => StyleKind::Shared,
    }
}

// The low 16 bits of the option vector of a style (RFC 2205, A.7).
fn style_value(style: StyleKind) -> u16
    ensures { result ≡ style_value style }
{
    match style {
        StyleKind::Wild => 17,
        StyleKind::Fixed => 10,
        StyleKind::Shared => 18,
    }
}

// What is heard: the first error; else whether a unit was left out.
fn heard_of(errors: &Refusals, left_out: bool) -> Heard
    ensures { (p : NodeConfig) (o : AskerOf) → result ≡ heard_of (map (refusal_of p o) errors.now) left_out }
{
    match errors.as_slice().first() {
        Some(first) => Heard::Answered(first.code, first.value),
        None => {
            if left_out {
                Heard::Dropped(Why::Full)
            } else {
                Heard::Taken
            }
        }
    }
}

// Whether no sender is known.
fn is_empty(known: &KnownSenders) -> bool
    ensures { result ≡ is_none known.now }
{
    known.as_slice().is_empty()
}

// Unit by unit, or refused whole.
fn take_or_refuse(tables: &mut Tables, iface: u8, message: &ResvMsg, done: &mut Taken)
    requires booked { IsBooked tables.old }
    requires pulled { ArePulled tables.old }
    requires place { IsOfPlace tables.old }
    requires exists { iface < length tables.old.book.ifaces }
    ensures done { (c : ℕ) (said : Said)
        → IsDone tables.old.config (asker_of_rule tables.old.config c iface message.now) done.new (taking tables.old.config c iface message.now (facts_of c (state_of tables.old said))) }
    ensures facts { (c : ℕ) (said : Said)
        → facts_of c (state_of tables.new said)
        ≡ with_resvs (ask_style message.now.ask) (taking tables.old.config c iface message.now (facts_of c (state_of tables.old said))).table (facts_of c (state_of tables.old said)) }
    ensures booked { IsBooked tables.new }
    ensures pulled { ArePulled tables.new }
    ensures ifaces { tables.new.book.ifaces ≡ tables.old.book.ifaces }
    ensures rest { tables.new ≡ record tables.old { wild = tables.new.wild; fixed = tables.new.fixed; shared = tables.new.shared; book = tables.new.book } }
    ensures quiet { done.new.news ≡ false → AreSameParts (state_of tables.old empty) (state_of tables.new empty) }
{
    let session = message.session;
    let style = style_of(&message.ask);
    let known = KnownSenders::of(&tables.senders, &tables.paths, session);
    if is_empty(&known) {
        return refuse_units(&message.ask, 3, 0, done);
    }
    if let Some(other) = style_conflict(tables, session, style) {
        return refuse_units(&message.ask, 5, style_value(other), done);
    }
    let all = matching(&tables.config, &known, session, iface, style);
    let asker = asker_of(&tables.config, iface, message);
    take_by_style(tables, &asker, &all, &message.ask, done);
}

// Unit by unit, into the table of the style.
fn take_by_style(tables: &mut Tables, asker: &Asker, all: &Matching, ask: &Ask, done: &mut Taken)
    requires booked { IsBooked tables.old }
    requires pulled { ArePulled tables.old }
    requires place { IsOfPlace tables.old }
    requires exists { asker.now.iface < length tables.old.book.ifaces }
    requires some { 1 ≤ asker.now.left }
    requires listed { (x : Sender) → has all.now x ≡ true → name_of (ask_style ask.now) x ≡ x }
    ensures done { (c : ℕ) (said : Said)
        → IsDone tables.old.config (asker_at c (ask_style ask.now) asker.now) done.new (taking_from tables.old.config c asker.now all.now ask.now (facts_of c (state_of tables.old said))) }
    ensures facts { (c : ℕ) (said : Said)
        → facts_of c (state_of tables.new said)
        ≡ with_resvs (ask_style ask.now) (taking_from tables.old.config c asker.now all.now ask.now (facts_of c (state_of tables.old said))).table (facts_of c (state_of tables.old said)) }
    ensures booked { IsBooked tables.new }
    ensures pulled { ArePulled tables.new }
    ensures ifaces { tables.new.book.ifaces ≡ tables.old.book.ifaces }
    ensures rest { tables.new ≡ record tables.old { wild = tables.new.wild; fixed = tables.new.fixed; shared = tables.new.shared; book = tables.new.book } }
    ensures quiet { done.new.news ≡ false → AreSameParts (state_of tables.old empty) (state_of tables.new empty) }
{
    look(tables);
    match ask {
        Ask::Wild { .. } => take_units(&mut tables.wild, &mut tables.book, asker, all, ask, done),
        Ask::Fixed(_) => take_units(&mut tables.fixed, &mut tables.book, asker, all, ask, done),
        Ask::Shared(_) => take_units(&mut tables.shared, &mut tables.book, asker, all, ask, done),
    }
}

// The proof sees here that no table has more than 1,024 reservations.
fn look(tables: &Tables)
    ensures { AreFew (state_of tables.now empty) }
{
    let _wild = tables.wild.limits();
    let _fixed = tables.fixed.limits();
    let _shared = tables.shared.limits();
}
