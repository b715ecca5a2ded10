//! The table of reservations of a style.
ghost use Rattle.std.specs.Prelude.{◌≡◌, ◌≤◌, ◌<◌, ◌+◌, ℕ, ◌↔◌, [], map, true, false, ◌||◌, is_some, IsErr, IsNone, IsTrue, IfOk, IfSome, OnOk, OnErr, None, Some, slice_get};
ghost use Rattle.std.specs.Option.{option_copied, option_map};
ghost use Rattle.rsvp_base.specs.Keys.{pairs};
ghost use Rattle.rsvp_base.specs.Orders.{sessions, units};
ghost use Rattle.rsvp_base.specs.Rows.{AreRows, table_of};
ghost use Rattle.rsvp_base.specs.Table.{empty, get, keys, put_in, size, without, changed};
ghost use Rattle.rsvp_base.specs.Under.{under};
ghost use Rattle.style_rules.specs.Limits.{within_limits, IsWithinLimits};
ghost use Rattle.style_rules.specs.Lines.{line_keys, next_hops};
ghost use Rattle.style_rules.specs.Merge.{merge};
ghost use Rattle.style_rules.specs.Parts.{IsOfStyle};
ghost use Rattle.rsvp_base.specs.Styles.{part_unit};
ghost use Rattle.style_rules.specs.Toward.{toward};
ghost use Rattle.resv_state.specs.Merging.{parts_on, requests_toward};
ghost use Rattle.soft_table.specs.Facts.{rows_behind};
ghost use Rattle.resv_state.specs.Walks.{rests};
ghost use Rattle.resv_state.specs.declared.fact.Held.{Held};
ghost use Rattle.resv_state.specs.Leaving.{torn, hop_has_one, forgotten, lessened, key_has_one};
ghost use Rattle.resv_state.specs.Resvs.{ResvFacts, AreOfStyle, AreUnderTheirKeys, asked_in, resv_key, resv_lines, held_row, dead_row, fact_of, dead_of, later, dead_after};

use crate::beside::join_beside;
use crate::fact::{Held, ResvFact};
use crate::leaving::{lessen, only, rest_of};
use crate::merging::{merge_on, merge_toward};
use crate::renewing::is_asked;
use crate::walks::{FACTS, fits_fact, fits_hop, fits_names, fits_session, is_refresh};
use rsvp_base::{Addr, Flow, Full, NoMemory, Part, Sender, Senders, Session, Unit};
use soft_table::{Finger, SoftTable};
use std::alloc::Global;
use std::marker::{Model, PhantomData};
use style_rules::{Parts, Style, Upstream};

/// The reservations of a style that a node keeps, one for a session, next hop and unit. Contracts see a finite map from
/// session, next hop (interface and address) and unit to the fact and the milliseconds that are left of it, and a finite
/// map of the dead facts that wait to be pulled. It is within the limits of a table of reservations.
#[derive(Drop)]
pub struct ResvTable<S: Style> {
    table: SoftTable<Held>,
    of: PhantomData<S>,
    ghost facts: { AreRows line_keys held_row table.facts },
    ghost dead: { AreRows line_keys dead_row table.dead },
    ghost room: { table.room ≡ 1024 },
    ghost style: { AreOfStyle S.kind_is (changed fact_of (table_of line_keys held_row table.facts facts)) },
    ghost gone: { AreUnderTheirKeys S.kind_is (changed dead_of (table_of line_keys dead_row table.dead dead)) },
    ghost within: { IsWithinLimits S.kind_is (resv_lines S.kind_is (changed fact_of (table_of line_keys held_row table.facts facts))) },
}

impl<S: Style> Model for ResvTable<S> {
    ghost use Rattle.rsvp_base.specs.Rows.{table_of};
    ghost use Rattle.rsvp_base.specs.Table.{changed};
    ghost use Rattle.style_rules.specs.Lines.{line_keys};
    ghost use Rattle.soft_table.specs.Facts.{rows_behind};
    ghost use Rattle.resv_state.specs.Walks.{rests};
    ghost use Rattle.resv_state.specs.Leaving.{torn, hop_has_one, forgotten, lessened, key_has_one};
    ghost use Rattle.resv_state.specs.Resvs.{ResvMap, resv_map_code, held_row, dead_row, fact_of, dead_of};

    ghost Value = { ResvMap };

    ghost coded = { resv_map_code };

    ghost view = { λ t. record { facts = changed fact_of (table_of line_keys held_row t.table.facts t.facts); dead = changed dead_of (table_of line_keys dead_row t.table.dead t.dead) } };
}

impl<S: Style> ResvTable<S> {
    /// A table without reservations. It takes no memory later. `NoMemory`: its room could not be had.
    pub fn open(alloc: Global) -> Result<ResvTable<S>, NoMemory>
        ensures { IfOk result (λ t. t ≡ record { facts = empty; dead = empty }) }
    {
        let table = SoftTable::open(alloc, FACTS)?;
        Ok(ResvTable {
            table,
            of: PhantomData,
        })
    }

    /// What holds of every table: its facts are of its style, and within the limits. This says it to who needs to know, and
    /// looks nothing up.
    pub fn limits(&self)
        ensures style { AreOfStyle S.kind_is self.now.facts }
        ensures within { IsWithinLimits S.kind_is (resv_lines S.kind_is self.now.facts) }
    {
        let _table = &self.table;
    }

    /// Keeps a reservation with this much left, in milliseconds, in place of that of its session, next hop and unit. `Full`
    /// exactly where the table would not be within its limits: a 1,025th reservation, a 33rd session, a 65th next hop of a
    /// session, or a 17th name of one; nothing changes then. The reservation is of the style, and no dead one may wait.
    pub fn put(&mut self, fact: ResvFact, left: u32) -> Result<(), Full>
        requires style { IsOfStyle S.kind_is fact.part }
        requires some { 1 ≤ left }
        requires pulled { self.old.dead.rows ≡ [] }
        ensures ok { OnOk result (self.new ≡ record self.old { facts = put_in self.old.facts (resv_key S.kind_is fact) (fact, left) }) }
        ensures full { IsErr result ↔ (within_limits S.kind_is (resv_lines S.kind_is (put_in self.old.facts (resv_key S.kind_is fact) (fact, left))) ≡ false) }
        ensures err { OnErr result (self.new ≡ self.old) }
    {
        if !self.fits(&fact) {
            return Err(Full);
        }
        let unit = unit_of::<S>(&fact.part);
        let Ok(()) = self.table.put(Held { unit, fact }, left) else {
            unreachable!();
        };
        Ok(())
    }

    /// Leaves this much, in milliseconds, of the reservation of a session, next hop and unit, where it is the one that is asked
    /// for: of this part, whose unit it is, and for whoever wants to hear that it stands; a wish for no confirmation leaves the
    /// one that stands. False exactly where it is another or there is none; nothing changes then. No dead one may wait.
    pub fn renew(
        &mut self,
        session: Session,
        iface: u8,
        next: Addr,
        part: &Part,
        confirm: Option<Addr>,
        left: u32,
    ) -> bool
        requires some { 1 ≤ left }
        requires pulled { self.old.dead.rows ≡ [] }
        ensures stands { let asked = asked_in S.kind_is self.old.facts (record { session = session; iface = iface; next = next; part = part.now; confirm = confirm }) in
            IsTrue result ↔ (option_map (λ e. e.0) (get self.old.facts (resv_key S.kind_is asked)) ≡ Some asked) }
        ensures renewed { let asked = asked_in S.kind_is self.old.facts (record { session = session; iface = iface; next = next; part = part.now; confirm = confirm }) in
            result ≡ true → self.new ≡ record self.old { facts = put_in self.old.facts (resv_key S.kind_is asked) (asked, left) } }
        ensures unchanged { result ≡ false → self.new ≡ self.old }
    {
        let rest = ((iface, next), unit_of::<S>(part));
        self.table.renew_if(session, rest, left, |held| {
            is_asked::<S>(&held.fact, part, confirm)
        })
    }

    /// Whether `put` would keep a reservation. It is of the style, and no dead one may wait.
    pub fn fits(&self, fact: &ResvFact) -> bool
        requires style { IsOfStyle S.kind_is fact.now.part }
        requires pulled { self.now.dead.rows ≡ [] }
        ensures { (left : ℕ) → result ≡ within_limits S.kind_is (resv_lines S.kind_is (put_in self.now.facts (resv_key S.kind_is fact.now) (fact.now, left))) }
    {
        let hop = (fact.iface, fact.next);
        let key = (hop, unit_of::<S>(&fact.part));
        if is_refresh(&self.table, fact.session, &key, &fact.part.senders) {
            return true;
        }
        if !fits_fact(&self.table, fact.session, &key) {
            return false;
        }
        if !fits_session(&self.table, fact.session) {
            return false;
        }
        if !fits_hop(&self.table, fact.session, hop) {
            return false;
        }
        fits_names(&self.table, fact.session, &key, &fact.part)
    }

    /// The reservation of a session, next hop and unit. `None` exactly where there is none.
    pub fn find(&self, session: Session, iface: u8, next: Addr, unit: Unit) -> Option<ResvFact>
        ensures fact { result ≡ option_map (λ e. e.0) (get self.now.facts (session, ((iface, next), unit))) }
        // What holds of every table.
        ensures style { AreOfStyle S.kind_is self.now.facts }
        ensures within { IsWithinLimits S.kind_is (resv_lines S.kind_is self.now.facts) }
    {
        match self.table.find(session, ((iface, next), unit)) {
            Some(held) => Some(held.fact.copy()),
            None => None,
        }
    }

    /// The k-th reservation of a session by next hop and unit, from 0. `None` exactly where k is not below their number.
    pub fn at(&self, session: Session, k: usize) -> Option<ResvFact>
        ensures { result ≡ option_map (λ e. e.1.0) (slice_get (under sessions (pairs next_hops units) self.now.facts session).rows k) }
    {
        match self.table.at(session, k) {
            Some(held) => Some(held.fact.copy()),
            None => None,
        }
    }

    /// The first reservation of a session by next hop and unit. `None` exactly where it has none.
    pub fn first(&self, session: Session) -> Option<&ResvFact>
        ensures { option_copied result ≡ option_map (λ e. e.1.0) (slice_get (under sessions rests self.now.facts session).rows 0) }
    {
        fact_in(self.table.at(session, 0))
    }

    /// The reservation of a session that comes next behind one of it, by next hop and unit. `None` exactly where none does. So
    /// a session's reservations are gone through one by one: from the first on, each behind the last. The finger only saves
    /// searching.
    pub fn after(&self, fact: &ResvFact, finger: &mut Finger) -> Option<&ResvFact>
        ensures behind { option_copied result ≡ option_map (λ e. e.1.0) (slice_get (rows_behind rests (resv_key S.kind_is fact.now).1 (under sessions rests self.now.facts fact.now.session).rows) 0) }
        ensures next { (k : ℕ) → Some fact.now ≡ option_map (λ e. e.1.0) (slice_get (under sessions rests self.now.facts fact.now.session).rows k)
            → option_copied result ≡ option_map (λ e. e.1.0) (slice_get (under sessions rests self.now.facts fact.now.session).rows (k + 1)) }
    {
        let rest = ((fact.iface, fact.next), unit_of::<S>(&fact.part));
        fact_in(self.table.after(fact.session, rest, finger))
    }

    /// The senders `gone` leave the reservations of a session's next hop; those that are left without senders go, and the
    /// others keep what is left of them. False exactly where no reservation of that next hop had one of them; nothing changes
    /// then.
    pub fn remove(&mut self, session: Session, iface: u8, next: Addr, gone: &Senders) -> bool
        ensures facts { self.new ≡ record self.old { facts = changed (torn session (iface, next) gone.now) self.old.facts } }
        ensures had { result ≡ hop_has_one session (iface, next) gone.now self.old.facts }
        ensures unchanged { result ≡ false → self.new ≡ self.old }
    {
        // The proof sees here that the table's reservations are of the style, so that each stands under a unit of its names.
        let _table = &self.table;
        let mut had = false;
        for name in gone.as_slice() {
            let rest = ((iface, next), S::unit_of(*name));
            if self.leave(session, rest, gone) {
                had = true;
            }
        }
        had
    }

    /// A sender leaves all reservations of a session; those that are left without senders go, and the others keep what is
    /// left of them.
    pub fn forget_sender(&mut self, session: Session, name: Sender)
        ensures { self.new ≡ record self.old { facts = changed (forgotten session name) self.old.facts } }
    {
        let gone = only(name);
        let mut next = self.first_rest(session);
        for k in 0..FACTS {
            let Some(rest) = next else {
                return;
            };
            self.leave(session, rest, &gone);
            next = self.next_rest(session, rest);
        }
    }

    // Where the first reservation of a session stands.
    fn first_rest(&self, session: Session) -> Option<((u8, Addr), Unit)>
        ensures first { result ≡ slice_get (keys (under sessions rests self.now.facts session)) 0 }
        ensures few { size (under sessions rests self.now.facts session) ≤ 1024 }
    {
        rest_of(self.table.at(session, 0))
    }

    // Where the one stands that comes next behind another.
    fn next_rest(&self, session: Session, rest: ((u8, Addr), Unit)) -> Option<((u8, Addr), Unit)>
        ensures { result ≡ slice_get (map (λ e. e.0) (rows_behind rests rest (under sessions rests self.now.facts session).rows)) 0 }
    {
        rest_of(self.table.after(session, rest, &mut Finger::default()))
    }

    // The senders leave the reservation of a key, which goes where none is left. Whether it had one of them.
    fn leave(&mut self, session: Session, rest: ((u8, Addr), Unit), gone: &Senders) -> bool
        ensures facts { self.new ≡ record self.old { facts = changed (lessened (session, rest) gone.now) self.old.facts } }
        ensures had { result ≡ key_has_one gone.now (get self.old.facts (session, rest)) }
        ensures unchanged { result ≡ false → self.new ≡ self.old }
    {
        lessen(&mut self.table, session, rest, gone)
    }

    /// The merge of the reservations of a session on an interface: of each unit the senders of all, and the join of the flows
    /// (RFC 2205, 2.2).
    pub fn parts(&self, session: Session, iface: u8) -> Parts
        ensures { result ≡ merge S.kind_is (parts_on iface (under sessions rests self.now.facts session).rows) }
    {
        merge_on::<S>(&self.table, session, iface).finish()
    }

    /// The flow of an entry as if a reservation stood in its place: the join of its flow with those of the other next hops
    /// on its interface and of its unit (RFC 2205, 2.2). The reservation is of the style.
    pub fn entry_with(&self, fact: &ResvFact) -> Flow
        requires { IsOfStyle S.kind_is fact.now.part }
        ensures { (left : ℕ)
            → option_map (λ p. p.flow)
            (get
            (merge S.kind_is (parts_on fact.now.iface (under sessions rests (put_in self.now.facts (resv_key S.kind_is fact.now) (fact.now, left)) fact.now.session).rows))
            (part_unit S.kind_is fact.now.part))
            ≡ Some result }
    {
        let key = ((fact.iface, fact.next), unit_of::<S>(&fact.part));
        join_beside(&self.table, fact.session, &key, fact.part.flow)
    }

    /// What goes toward a previous hop (RFC 2205, 2.2 and 3.5). `up` has the names whose paths come from there, each with the
    /// interfaces by which its tree goes out, and with its blockade; for the wildcard style the hop's blockade stands in each
    /// line. A reservation of the session is cut to the names whose tree goes out of its interface, and a local want of `own`
    /// to all names. What is left is blockaded by the blockade of any of its names. Of each unit it is the join of those that
    /// are not blockaded, or, where all are, their meet.
    pub fn toward(&self, session: Session, up: &Upstream, own: &Parts) -> Parts
        ensures { result ≡ toward S.kind_is (requests_toward up.now (under sessions rests self.now.facts session).rows own.now) }
    {
        prove!(up.len() <= 16);
        merge_toward::<S>(&self.table, session, up, own).finish()
    }

    /// Lets time pass, in milliseconds. The reservations with at most so much left are dead then, and wait to be pulled; the
    /// others have so much less left. No dead one may wait from before.
    pub fn advance(&mut self, ms: u32)
        requires { self.old.dead.rows ≡ [] }
        ensures facts { self.new.facts ≡ changed (later ms) self.old.facts }
        ensures dead { self.new.dead ≡ changed (dead_after ms) self.old.facts }
    {
        self.table.advance(ms);
    }

    /// Takes a dead reservation out. `None` exactly where none waits; nothing changes then.
    pub fn pull_dead(&mut self) -> Option<ResvFact>
        ensures dead { IfSome result (λ f. get self.old.dead (resv_key S.kind_is f) ≡ Some f) }
        ensures pulled { IfSome result (λ f. self.new ≡ record self.old { dead = without self.old.dead (resv_key S.kind_is f) }) }
        ensures none { IsNone result → self.old.dead.rows ≡ [] }
        ensures unchanged { IsNone result → self.new ≡ self.old }
    {
        let Some(held) = self.table.pull_dead() else {
            return None;
        };
        Some(held.fact)
    }

    /// Takes all reservations out, the dead that wait too.
    pub fn clear(&mut self)
        ensures { self.new ≡ record { facts = empty; dead = empty } }
    {
        self.table.clear();
    }
}

// The reservation of what a table keeps.
fn fact_in(held: Option<&Held>) -> Option<&ResvFact>
    ensures { option_copied result ≡ option_map (λ (h : Held). h.fact) (option_copied held.entry) }
{
    match held {
        Some(held) => Some(&held.fact),
        None => None,
    }
}

fn unit_of<S: Style>(part: &Part) -> Unit
    ensures { result ≡ part_unit S.kind_is part.now }
{
    part.unit(S::kind())
}
