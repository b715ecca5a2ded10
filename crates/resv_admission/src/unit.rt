//! A unit of a Resv is left out, refused or taken.
ghost use Rattle.std.specs.Prelude.{◌≡◌, ◌≤◌, ◌<◌, ◌+◌, ◌++◌, ℕ, [], false, length, map, Some};
ghost use Rattle.rsvp_base.specs.Table.{empty, size};
ghost use Rattle.rsvp_base.specs.Styles.{part_unit};
ghost use Rattle.style_rules.specs.Parts.{IsOfStyle};
ghost use Rattle.router_rules.specs.Asking.{Taking, losses, put_unit, take_unit, value_of, Asker as AskerOf};
ghost use Rattle.router_rules.specs.Facts.{Facts};
ghost use Rattle.router_rules.specs.NodeConfig.{NodeConfig};
ghost use Rattle.resv_admission.specs.Placing.{IsBookAmong};
ghost use Rattle.resv_admission.specs.Standing.{IsQuiet};
ghost use Rattle.resv_admission.specs.Units.{IsFit, IsSoFar, asked_unit, asker_at, blamed, refusal_of};

use crate::lost::{Lost, lost_of};
use crate::matching::Matching;
use crate::placing::Placed;
use crate::refusals::{Refusal, Refusals};
use crate::unit_renewal::place_or_renew;
use admission_book::{Book, Refused};
use resv_state::ResvTable;
use rsvp_base::{Addr, EntryKey, Flow, Part, Senders, Session, Unit};
use style_rules::{Parts, Style};

/// What the units of a Resv have in common: the interface by which it came, its session and next hop, who wants to hear that
/// it stands, and how long what is taken lives, in milliseconds.
#[derive(Clone, Copy, Debug, PartialEq, Eq)]
pub struct Asker {
    pub iface: u8,
    pub session: Session,
    pub next: Addr,
    pub confirm: Option<Addr>,
    pub left: u32,
}

/// A unit that is asked for; without a list of names, of all that match.
#[derive(Drop)]
pub struct Wanted {
    pub unit: Unit,
    pub names: Option<Senders>,
    pub flow: Flow,
}

/// What became of the units so far: the refusals in the order in which they came, whether a unit was left out for want of
/// room, the parts that were taken, and whether one of them is news: it did not stand in its place before, or whoever wants to
/// hear of it is another.
#[derive(Drop)]
pub struct Taken {
    pub errors: Refusals,
    pub left_out: bool,
    pub parts: Parts,
    pub news: bool,
}

impl Taken {
    /// Nothing yet.
    pub fn new() -> Taken
        ensures { result ≡ record { errors = []; left_out = false; parts = empty; news = false } }
    {
        Taken {
            errors: Refusals::new(),
            left_out: false,
            parts: Parts::new(),
            news: false,
        }
    }

    /// Nothing, as at first.
    pub fn clear(&mut self)
        ensures { self.new ≡ record { errors = []; left_out = false; parts = empty; news = false } }
    {
        self.errors.clear();
        self.left_out = false;
        self.parts.clear();
        self.news = false;
    }
}

// A unit takes its place, is refused or is left out, and names of it for which there is no sender are refused (RFC 2205,
// appendix B: error codes 1 and 4). A refused unit changes nothing, restarts no lifetime, and keeps no other from its place.
pub(crate) fn take_unit<S: Style>(
    table: &mut ResvTable<S>,
    book: &mut Book,
    asker: &Asker,
    all: &Matching,
    wanted: Wanted,
    done: &mut Taken,
)
    requires some { 1 ≤ asker.now.left }
    requires pulled { table.old.dead.rows ≡ [] }
    requires exists { asker.now.iface < length book.old.ifaces }
    requires kept { IsBookAmong S.kind_is table.old.facts book.old.entries }
    requires fit { IsFit S.kind_is all.now wanted }
    requires few_errors { length done.old.errors ≤ 30 }
    requires few_parts { size done.old.parts ≤ 15 }
    ensures step { (p : NodeConfig) (c : ℕ) (f : Facts) (t : Taking) → p.ifaces ≡ book.old.ifaces
        → IsSoFar p c S.kind_is asker.now f table.old.facts book.old.entries done.old t
        → IsSoFar p c S.kind_is asker.now f table.new.facts book.new.entries done.new (take_unit p (asker_at c S.kind_is asker.now) f all.now t (asked_unit wanted)) }
    ensures kept { IsBookAmong S.kind_is table.new.facts book.new.entries }
    ensures dead { table.new.dead ≡ table.old.dead }
    ensures ifaces { book.new.ifaces ≡ book.old.ifaces }
    ensures few_errors { length done.new.errors ≤ length done.old.errors + 2 }
    ensures few_parts { size done.new.parts ≤ size done.old.parts + 1 }
    ensures quiet { IsQuiet done.old.news done.new.news table.old.facts table.new.facts }
{
    tell_lost(
        &mut done.errors,
        lost_of(S::kind(), &wanted.names, all),
        wanted.flow,
    );
    let Some(senders) = all.of_list(&wanted.names) else {
        done.left_out = true;
        return;
    };
    if senders.is_empty() {
        return;
    }
    let part = Part {
        senders,
        flow: wanted.flow,
    };
    put_unit(table, book, asker, wanted.unit, part, done);
}

// Names for which there is no sender: error 4.
fn tell_lost(errors: &mut Refusals, lost: Lost, flow: Flow)
    requires { length errors.old < 32 }
    ensures told { (p : NodeConfig) (o : AskerOf) → map (refusal_of p o) errors.new ≡ map (refusal_of p o) errors.old ++ losses p o flow (blamed lost) }
    ensures few { length errors.new ≤ length errors.old + 1 }
{
    match lost {
        Lost::Nobody => {}
        Lost::Everyone => errors.push(no_sender(None, flow)),
        Lost::These(names) => errors.push(no_sender(Some(names), flow)),
    }
}

// No sender information.
fn no_sender(names: Option<Senders>, flow: Flow) -> Refusal
    ensures { result ≡ record { in_place = false; code = 4; value = 0; names = names; flow = flow } }
{
    Refusal {
        in_place: false,
        code: 4,
        value: 0,
        names,
        flow,
    }
}

// The error value: 2 for the rate, 3 for the packet size (RFC 2205, appendix B, error code 01).
fn value_of(why: &Refused) -> u16
    ensures { result ≡ value_of why.now }
{
    match why {
        Refused::Mtu { .. } => 3,
        Refused::Rate { .. } => 2,
    }
}

// A part takes the place of a unit, is refused or left out.
fn put_unit<S: Style>(
    table: &mut ResvTable<S>,
    book: &mut Book,
    asker: &Asker,
    unit: Unit,
    part: Part,
    done: &mut Taken,
)
    requires some { 1 ≤ asker.now.left }
    requires pulled { table.old.dead.rows ≡ [] }
    requires exists { asker.now.iface < length book.old.ifaces }
    requires kept { IsBookAmong S.kind_is table.old.facts book.old.entries }
    requires style { IsOfStyle S.kind_is part }
    requires unit { part_unit S.kind_is part ≡ unit }
    requires few_errors { length done.old.errors < 32 }
    requires few_parts { size done.old.parts ≤ 15 }
    ensures step { (p : NodeConfig) (c : ℕ) (f : Facts) (t : Taking) → p.ifaces ≡ book.old.ifaces
        → IsSoFar p c S.kind_is asker.now f table.old.facts book.old.entries done.old t
        → IsSoFar p c S.kind_is asker.now f table.new.facts book.new.entries done.new (put_unit p (asker_at c S.kind_is asker.now) f unit (Some part) t) }
    ensures kept { IsBookAmong S.kind_is table.new.facts book.new.entries }
    ensures dead { table.new.dead ≡ table.old.dead }
    ensures ifaces { book.new.ifaces ≡ book.old.ifaces }
    ensures few_errors { length done.new.errors ≤ length done.old.errors + 1 }
    ensures few_parts { size done.new.parts ≤ size done.old.parts + 1 }
    ensures quiet { IsQuiet done.old.news done.new.news table.old.facts table.new.facts }
{
    prove!(part.senders.len() <= 16);
    match place_or_renew(table, book, asker, &part, &mut done.news) {
        Placed::LeftOut => {
            done.left_out = true;
        }
        Placed::Refused(why) => {
            let style = S::kind();
            let key = EntryKey {
                session: asker.session,
                style,
                unit,
            };
            let in_place = book.entry(asker.iface, &key).is_some();
            let value = value_of(&why);
            done.errors.push(Refusal {
                in_place,
                code: 1,
                value,
                names: Some(part.senders),
                flow: part.flow,
            });
        }
        Placed::Taken => {
            let Ok(()) = done.parts.put(unit, part) else {
                unreachable!();
            };
        }
    }
}
