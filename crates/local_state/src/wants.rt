//! Local wants.
ghost use Rattle.std.specs.Prelude.{◌≡◌, ◌≤◌, ◌↔◌, false, map, not, cond, nat_lt, length, vec_capacity, IfOk, IsErr, OnOk, OnErr};
ghost use Rattle.std.specs.List.{filter, list_any};
ghost use Rattle.std.specs.Ordering.{is_le, is_lt};
ghost use Rattle.rsvp_base.specs.Orders.{sessions, units};
ghost use Rattle.rsvp_base.specs.Rows.{AreRows, table_of};
ghost use Rattle.rsvp_base.specs.SessionLimits.{IsWithinSessionLimits, has_room_at};
ghost use Rattle.rsvp_base.specs.Table.{empty, changed, kept, put_in, size, values};
ghost use Rattle.rsvp_base.specs.Under.{rows_under, under};
ghost use Rattle.router_rules.specs.Facts.{want_keys};
ghost use Rattle.router_rules.specs.NodeConfig.{is_session};
ghost use Rattle.router_rules.specs.Requests.{is_style};
ghost use Rattle.local_state.specs.Wants.{want_row, asked_row, want_of, IsHeld, own_part, own_want, unmarked_at};

use crate::insert::insert_row;
use crate::sizes::{has_room, with_session, without_all};
use rsvp_base::sorted::search;
use rsvp_base::{Full, NoMemory, Part, Senders, Session, StyleKind, Unit, sorted};
use std::alloc::Global;
use std::marker::Model;
use style_rules::Parts;

// At most so many wants: 16 units of each of 32 sessions.
const ROOM: usize = 512;

/// What a local receiver asks for: a unit of a session and style, with its senders (none for a wildcard filter) and its flow,
/// and whether it is to hear that the reservation stands.
#[derive(Drop)]
pub struct LocalWant {
    pub session: Session,
    pub unit: Unit,
    pub style: StyleKind,
    pub part: Part,
    pub confirm: bool,
}

impl sorted::Row for LocalWant {
    ghost use Rattle.router_rules.specs.Facts.{Want};
    ghost use Rattle.local_state.specs.Wants.{want_row};

    type Key = (Session, Unit);

    ghost Rest = { Want };

    ghost as_row = { want_row };

    fn key(&self) -> (Session, Unit) {
        (self.session, self.unit)
    }
}

/// The local wants, one for a session and unit. Contracts see a finite map from session and unit to the style, the part and
/// the mark. At most 32 sessions have some, and at most 16 each.
#[derive(Drop)]
pub struct LocalWants {
    rows: Vec<LocalWant>,
    // How many sessions have some.
    held: usize,
    ghost rising: { AreRows want_keys want_row rows.items },
    ghost within: { IsWithinSessionLimits units (table_of want_keys want_row rows.items rising) },
    ghost counted: { IsHeld held (table_of want_keys want_row rows.items rising) },
    ghost room: { 512 ≤ vec_capacity rows },
}

impl Model for LocalWants {
    ghost use Rattle.rsvp_base.specs.Rows.{table_of};
    ghost use Rattle.router_rules.specs.Facts.{Wants, want_keys};
    ghost use Rattle.local_state.specs.Wants.{want_row, wants_code};

    ghost Value = { Wants };

    ghost coded = { wants_code };

    ghost view = { λ t. table_of want_keys want_row t.rows.items t.rising };
}

impl LocalWants {
    /// No want. It takes no memory later. `NoMemory`: the room could not be had.
    pub fn open(alloc: Global) -> Result<LocalWants, NoMemory>
        ensures { IfOk result (λ t. t ≡ empty) }
    {
        let rows = Vec::with_capacity(alloc, ROOM)?;
        Ok(LocalWants { rows, held: 0 })
    }

    /// Those of a session, in order of unit: at most 16.
    pub fn of(&self, session: Session) -> &[LocalWant]
        ensures rows { map asked_row result.now ≡ (under sessions units self.now session).rows }
        ensures few { length result.now ≤ 16 }
        // What holds of every table.
        ensures within { IsWithinSessionLimits units self.now }
    {
        of_session(self.rows.as_slice(), session)
    }

    /// Whether a session has wants of another style than this.
    pub fn has_other(&self, session: Session, style: StyleKind) -> bool
        ensures { result ≡ list_any (λ w. not (is_style w.style style)) (values (under sessions units self.now session)) }
    {
        any_of_other(self.of(session), style)
    }

    /// Puts a want in place of that of its session and unit. `Full` exactly where this would be the first of a 33rd session,
    /// or a 17th of its session; nothing changes then.
    pub fn put(&mut self, want: LocalWant) -> Result<(), Full>
        ensures ok { OnOk result (self.new ≡ put_in self.old (want.session, want.unit) (want_of want)) }
        ensures full { IsErr result ↔ (has_room_at units (put_in self.old (want.session, want.unit) (want_of want)) want.session ≡ false) }
        ensures err { OnErr result (self.new ≡ self.old) }
    {
        match search(self.rows.as_slice(), &(want.session, want.unit)) {
            Ok(at) => {
                self.rows[at] = want;
                Ok(())
            }
            Err(at) => {
                let among = of_session(self.rows.as_slice(), want.session).len();
                if !has_room(among, self.held) {
                    return Err(Full);
                }
                self.held = with_session(among, self.held);
                insert_row(&mut self.rows, at, want);
                Ok(())
            }
        }
    }

    /// Takes all wants of a session out. False exactly where it has none; nothing changes then.
    pub fn quit(&mut self, session: Session) -> bool
        ensures had { result ≡ nat_lt 0 (size (under sessions units self.old session)) }
        ensures gone { self.new ≡ kept (λ k. not (is_session k.0 session)) self.old }
    {
        let among = of_session(self.rows.as_slice(), session).len();
        take_session(&mut self.rows, session);
        self.held = without_all(among, self.held);
        0 < among
    }

    /// The want of a session and unit, if there is one, is no longer to hear that its reservation stands.
    pub fn unmark(&mut self, session: Session, unit: Unit)
        ensures { self.new ≡ changed (unmarked_at (session, unit)) self.old }
    {
        if let Ok(at) = search(self.rows.as_slice(), &(session, unit)) {
            self.rows[at].confirm = false;
        }
    }

    /// What a session's wants of a style ask for toward a previous hop: of the wildcard style for these names, those via the
    /// hop, and of the others for their own.
    pub fn own(&self, session: Session, style: StyleKind, names: &Senders) -> Parts
        ensures { result ≡ changed (own_want style names.now) (under sessions units self.now session) }
    {
        let wants = self.of(session);
        let mut parts = Parts::new();
        // From the last to the first, so that each goes before those that are there.
        for i in 0..wants.len() {
            let want = &wants[wants.len() - 1 - i];
            if is_of_style(want, style) {
                put_own(&mut parts, want.unit, own_part(style, names, &want.part));
            }
        }
        parts
    }
}

// Takes the rows of a session out.
fn take_session(rows: &mut Vec<LocalWant>, session: Session)
    ensures rows { rows.new.items ≡ filter (λ r. not (is_session r.session session)) rows.old.items }
    ensures capacity { vec_capacity rows.new ≡ vec_capacity rows.old }
{
    rows.retain(|row| row.session != session);
}

// Puts a part in its place. The room is there.
fn put_own(parts: &mut Parts, unit: Unit, part: Part)
    requires { size (put_in parts.old unit part) ≤ 16 }
    ensures { parts.new ≡ put_in parts.old unit part }
{
    let Ok(()) = parts.put(unit, part) else {
        unreachable!();
    };
}

// What a want asks for, where these names are via the hop.
fn own_part(style: StyleKind, names: &Senders, part: &Part) -> Part
    ensures { result ≡ own_part style names.now part.now }
{
    match style {
        StyleKind::Wild => Part {
            senders: names.copy(),
            flow: part.flow,
        },
        StyleKind::Fixed | StyleKind::Shared => part.copy(),
    }
}

// Whether a want is of the style.
fn is_of_style(want: &LocalWant, style: StyleKind) -> bool
    ensures { result ≡ is_style want.now.style style }
{
    want.style == style
}

// Whether one of the wants is of another style.
fn any_of_other(wants: &[LocalWant], style: StyleKind) -> bool
    ensures { result ≡ list_any (λ r. not (is_style r.style style)) wants.now }
{
    wants.iter().any(|want| want.style != style)
}

// Whether a row stands before those of the session.
fn is_before(row: &LocalWant, session: Session) -> bool
    ensures { result ≡ is_lt (sessions.cmp row.now.session session) }
{
    row.session.cmp(&session).is_lt()
}

// Whether a row stands before those of the session or is one of them.
fn is_up_to(row: &LocalWant, session: Session) -> bool
    ensures { result ≡ is_le (sessions.cmp row.now.session session) }
{
    row.session.cmp(&session).is_le()
}

// The rows of a session, which stand together.
fn of_session(rows: &[LocalWant], session: Session) -> &[LocalWant]
    requires { AreRows want_keys want_row rows.now }
    ensures { map asked_row result.now ≡ rows_under sessions units session (map want_row rows.now) }
{
    let from = &rows[rows.partition_point(|row| is_before(row, session))..];
    &from[..from.partition_point(|row| is_up_to(row, session))]
}
