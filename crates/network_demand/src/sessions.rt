//! The sessions in which someone sends.
ghost use Rattle.std.specs.Prelude.{◌≡◌, ◌↔◌, ◌++◌, ◌∷◌, [], map, IsTrue, IfOk, OnOk};
ghost use Rattle.std.specs.Ordering.{eq_by_cmp};
ghost use Rattle.rsvp_base.specs.Members.{In};
ghost use Rattle.rsvp_base.specs.Orders.{sessions};
ghost use Rattle.rsvp_base.specs.declared.session.Session.{Session};
ghost use Rattle.tree_model.specs.Chains.{NoRepeats};

use rsvp_base::{NoMemory, Session};
use std::alloc::Global;
use tree_model::LocalSender;

/// The sessions in which someone sends, each once. `NoMemory`: there was no room for them.
pub(crate) fn sessions_of(alloc: Global, senders: &[LocalSender]) -> Result<Vec<Session>, NoMemory>
    ensures once { IfOk result (λ sessions. NoRepeats sessions.items) }
    ensures all { IfOk result (λ sessions. (s : Session) → In s sessions.items ↔ In s (map (λ x. x.session) senders.now)) }
{
    let mut sessions = Vec::new(alloc);
    for sender in senders {
        add_session(&mut sessions, sender.session)?;
    }
    Ok(sessions)
}

// Adds a session, if it is not there.
fn add_session(sessions: &mut Vec<Session>, session: Session) -> Result<(), NoMemory>
    ensures once { OnOk result (NoRepeats sessions.old.items → NoRepeats sessions.new.items) }
    ensures all { OnOk result ((s : Session) → In s sessions.new.items ↔ In s (sessions.old.items ++ session ∷ [])) }
{
    if is_among(sessions.as_slice(), session) {
        return Ok(());
    }
    if sessions.push(session).is_err() {
        return Err(NoMemory);
    }
    Ok(())
}

// Whether a session is among these.
fn is_among(sessions: &[Session], session: Session) -> bool
    ensures { IsTrue result ↔ In session sessions.now }
{
    for one in sessions {
        if is_session(session, *one) {
            return true;
        }
    }
    false
}

// Whether two sessions are the same.
fn is_session(session: Session, other: Session) -> bool
    ensures { result ≡ eq_by_cmp sessions.cmp session other }
{
    session == other
}
