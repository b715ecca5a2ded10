//! Which sessions something changed of.
ghost use Rattle.std.specs.Prelude.{◌≡◌, ◌≤◌, ◌<◌, [], ◌∷◌, true, false, length, IfOk, IfErr, slice_get};
ghost use Rattle.std.specs.List.{list_any};
ghost use Rattle.rsvp_base.specs.Orders.{sessions};
ghost use Rattle.rsvp_base.specs.Rows.{AreRows, LacksRowAt};
ghost use Rattle.rsvp_base.specs.Table.{empty, put_in, size, values};
ghost use Rattle.blockade_state.specs.Touched.{mark_row, touched_by, is_touched};

use arrayvec::ArrayVec;
use rsvp_base::sorted::search;
use rsvp_base::{Session, sorted};
use std::marker::Model;

// A watched session, and whether something of it changed.
#[derive(Clone, Copy, Default)]
pub(crate) struct Mark {
    pub(crate) session: Session,
    pub(crate) touched: bool,
}

impl sorted::Row for Mark {
    ghost use Rattle.std.specs.Prelude.{Bool};
    ghost use Rattle.blockade_state.specs.Touched.{mark_row};

    type Key = Session;

    ghost Rest = { Bool };

    ghost as_row = { mark_row };

    fn key(&self) -> Session {
        self.session
    }
}

/// The sessions that are watched, at most 64, each with whether something of it changed. Contracts see a finite map from
/// session to that.
#[derive(Drop)]
pub struct Touched {
    list: ArrayVec<Mark, 64>,
    ghost rising: { AreRows sessions mark_row list.items },
    ghost few: { length list.items ≤ 64 },
}

impl Model for Touched {
    ghost use Rattle.rsvp_base.specs.Orders.{sessions};
    ghost use Rattle.rsvp_base.specs.Rows.{table_of};
    ghost use Rattle.blockade_state.specs.Touched.{Marks, mark_row, marks_code};

    ghost Value = { Marks };

    ghost coded = { marks_code };

    ghost view = { λ t. table_of sessions mark_row t.list.items t.rising };
}

impl Touched {
    /// None is watched.
    pub fn new() -> Touched
        ensures { result ≡ empty }
    {
        Touched {
            list: ArrayVec::new(),
        }
    }

    /// Watches a session, of which nothing changed yet. There is room for it: at most 64 are watched then.
    pub fn watch(&mut self, session: Session)
        requires { size (put_in self.old session false) ≤ 64 }
        ensures { self.new ≡ put_in self.old session false }
    {
        let mark = Mark {
            session,
            touched: false,
        };
        let marks = self.list.as_slice();
        if is_behind(marks, session) {
            self.list.push(mark);
            return;
        }
        match search(marks, &session) {
            Ok(at) => self.list[at] = mark,
            Err(at) => self.list.insert(at, mark),
        }
    }

    /// Something of a session changed. Nothing is kept of one that is not watched.
    pub fn touch(&mut self, session: Session)
        ensures { self.new ≡ touched_by (session ∷ []) self.old }
    {
        if let Ok(at) = search(self.list.as_slice(), &session) {
            self.list[at] = Mark {
                session,
                touched: true,
            };
        }
    }

    /// Whether something changed of a session that is watched.
    pub fn has(&self, session: Session) -> bool
        ensures { result ≡ is_touched self.now session }
    {
        match search(self.list.as_slice(), &session) {
            Ok(at) => self.list[at].touched,
            Err(_) => false,
        }
    }

    /// Whether something changed of any session that is watched.
    pub fn has_any(&self) -> bool
        ensures { result ≡ list_any (λ b. b) (values self.now) }
    {
        any_touched(self.list.as_slice())
    }

    /// The k-th session that is watched, in order, with whether something of it changed. `None` exactly where k is not below
    /// their number.
    pub fn at(&self, k: usize) -> Option<(Session, bool)>
        ensures mark { result ≡ slice_get self.now.rows k }
        // What holds of every such list.
        ensures few { size self.now ≤ 64 }
    {
        let mark = self.list.as_slice().get(k)?;
        Some((mark.session, mark.touched))
    }
}

// Whether a session goes behind all that are watched, so that no search is needed: sessions are most often watched in order.
fn is_behind(marks: &[Mark], session: Session) -> bool
    requires { AreRows sessions mark_row marks.now }
    ensures { result ≡ true → LacksRowAt sessions mark_row marks.now session (length marks.now) }
{
    match marks.last() {
        Some(last) => last.session.cmp(&session).is_lt(),
        None => true,
    }
}

// Whether one of the marks says that something changed.
fn any_touched(marks: &[Mark]) -> bool
    ensures { result ≡ list_any (λ m. m.touched) marks.now }
{
    marks.iter().any(|mark| mark.touched)
}
