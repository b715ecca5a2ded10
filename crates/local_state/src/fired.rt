//! Lists of sessions.
ghost use Rattle.std.specs.Prelude.{◌≡◌, ◌≤◌, length, IfOk, IfErr};
ghost use Rattle.rsvp_base.specs.Orders.{sessions};
ghost use Rattle.rsvp_base.specs.Rows.{AreRows, HasRowAt, LacksRowAt, table_of};
ghost use Rattle.local_state.specs.Rows.{session_row};

use arrayvec::ArrayVec;
use rsvp_base::Session;
use std::marker::Model;

/// The sessions whose countdowns came due, in order: at most 64. Contracts see the set of them.
#[derive(Drop)]
pub struct Fired {
    list: ArrayVec<Session, 64>,
    ghost rising: { AreRows sessions session_row list.items },
    ghost few: { length list.items ≤ 64 },
}

impl Model for Fired {
    ghost use Rattle.rsvp_base.specs.Orders.{sessions};
    ghost use Rattle.rsvp_base.specs.Rows.{table_of};
    ghost use Rattle.rsvp_base.specs.Sets.{Set};
    ghost use Rattle.local_state.specs.Rows.{session_row, fired_code};

    ghost Value = { Set sessions };

    ghost coded = { fired_code };

    ghost view = { λ f. table_of sessions session_row f.list.items f.rising };
}

impl Fired {
    ghost use Rattle.rsvp_base.specs.Table.{has, keys};

    /// The sessions in order.
    pub fn as_slice(&self) -> &[Session]
        ensures sessions { result.now ≡ keys self.now }
        ensures few { length result.now ≤ 64 }
    {
        self.list.as_slice()
    }

    /// Whether a session is one of them.
    pub fn has(&self, session: Session) -> bool
        ensures { result ≡ has self.now session }
    {
        search(self.list.as_slice(), session).is_ok()
    }

    // The list of these.
    pub(crate) fn of(list: ArrayVec<Session, 64>) -> Fired
        requires rising { AreRows sessions session_row list.items }
        requires few { length list.items ≤ 64 }
        ensures { (up : AreRows sessions session_row list.items) → result ≡ table_of sessions session_row list.items up }
    {
        Fired { list }
    }
}

// Where the session stands, or where it would go.
fn search(list: &[Session], session: Session) -> Result<usize, usize>
    requires { AreRows sessions session_row list.now }
    ensures there { IfOk result (HasRowAt sessions session_row list.now session) }
    ensures absent { IfErr result (LacksRowAt sessions session_row list.now session) }
{
    list.binary_search(&session)
}
