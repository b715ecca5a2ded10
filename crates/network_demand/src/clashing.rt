//! Sessions that are wanted in two styles.
ghost use Rattle.std.specs.Prelude.{◌≡◌, ◌↔◌, ◌⊎◌, ◌++◌, ◌∷◌, [], IfOk, OnOk, IsTrue};
ghost use Rattle.rsvp_base.specs.Members.{In};
ghost use Rattle.rsvp_base.specs.declared.session.Session.{Session};
ghost use Rattle.tree_model.specs.Chains.{NoRepeats};
ghost use Rattle.network_demand.specs.Misfits.{Differs, HasTwoStyles, IsOtherStyle};

use rsvp_base::{NoMemory, Session};
use std::alloc::Global;
use tree_model::LocalWant;

/// The sessions that are wanted in two styles, each once. `NoMemory`: there was no room for them.
pub(crate) fn clashing(alloc: Global, wants: &[LocalWant]) -> Result<Vec<Session>, NoMemory>
    ensures once { IfOk result (λ found. NoRepeats found.items) }
    ensures all { IfOk result (λ found. (s : Session) → In s found.items ↔ HasTwoStyles wants.now s) }
{
    let mut found = Vec::new(alloc);
    for want in wants {
        add_if(&mut found, want.session, differs(wants, want))?;
    }
    Ok(found)
}

// Adds a session, if this holds of it.
fn add_if(found: &mut Vec<Session>, session: Session, holds: bool) -> Result<(), NoMemory>
    ensures once { OnOk result (NoRepeats found.old.items → NoRepeats found.new.items) }
    ensures all { OnOk result ((s : Session) → In s found.new.items ↔ (In s found.old.items ⊎ (IsTrue holds × (s ≡ session)))) }
{
    if holds {
        return add_once(found, session);
    }
    Ok(())
}

// Adds a session, if it is not there.
fn add_once(found: &mut Vec<Session>, session: Session) -> Result<(), NoMemory>
    ensures once { OnOk result (NoRepeats found.old.items → NoRepeats found.new.items) }
    ensures all { OnOk result ((s : Session) → In s found.new.items ↔ In s (found.old.items ++ session ∷ [])) }
{
    if is_among(found.as_slice(), session) {
        return Ok(());
    }
    if found.push(session).is_err() {
        return Err(NoMemory);
    }
    Ok(())
}

// Whether a session is among these.
fn is_among(sessions: &[Session], session: Session) -> bool
    ensures { IsTrue result ↔ In session sessions.now }
{
    for one in sessions {
        if session == *one {
            return true;
        }
    }
    false
}

// Whether someone wants the session of a want in another style.
fn differs(wants: &[LocalWant], want: &LocalWant) -> bool
    ensures { IsTrue result ↔ Differs wants.now want.now }
{
    for other in wants {
        if is_other_style(other, want) {
            return true;
        }
    }
    false
}

// Whether two wants are of one session and of different styles.
fn is_other_style(other: &LocalWant, want: &LocalWant) -> bool
    ensures { IsTrue result ↔ IsOtherStyle other.now want.now }
{
    other.session == want.session && other.style != want.style
}
