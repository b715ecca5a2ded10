//! The sessions that lines name.
ghost use Rattle.std.specs.Prelude.{◌≡◌, ◌↔◌, ◌∷◌, ◌++◌, [], IsTrue, IfErr, IfOk, OnOk, map};
ghost use Rattle.std.specs.List.{list_any};
ghost use Rattle.network_model.specs.Happenings.{call_of};
ghost use Rattle.script_grammar.specs.Events.{AtNode};
ghost use Rattle.router_rules.specs.Steps.{IsFitCall};
ghost use Rattle.script_rules.specs.Said.{draft_of};
ghost use Rattle.script_rules.specs.Events.{event_of};
ghost use Rattle.script_rules.specs.Refusals.{OnlyNoMemory};
ghost use Rattle.script_grammar.specs.GivenEvents.{IsAdded};
ghost use Rattle.script_grammar.specs.Draft.{same_session, with_session};
ghost use Rattle.script_grammar.specs.Rules.{HasRoomForSession};

use crate::keeping::keep;
use crate::state::ScriptState;
use network_model::{Event, LocalCall};
use rsvp_base::Session;
use script_grammar::Stop;

const MOST_SESSIONS: usize = 32;

/// Whether two sessions are the same.
pub fn is_session(session: Session, other: Session) -> bool
    ensures { result ≡ same_session session other }
{
    session == other
}

// Whether a session was named.
fn is_named(sessions: &[Session], session: Session) -> bool
    ensures { result ≡ list_any (same_session session) sessions.now }
{
    sessions.iter().any(|one| is_session(session, *one))
}

/// Whether no more than 32 sessions are named with this one.
pub fn has_room_for_session(state: &ScriptState, session: Session) -> bool
    ensures { IsTrue result ↔ HasRoomForSession (draft_of state.now) session }
{
    let sessions = state.sessions.as_slice();
    if is_named(sessions, session) {
        sessions.len() <= MOST_SESSIONS
    } else {
        sessions.len() < MOST_SESSIONS
    }
}

/// Names a session.
pub fn name_session(state: &mut ScriptState, session: Session) -> Result<(), Stop>
    ensures ok { OnOk result (draft_of state.new ≡ record (draft_of state.old) { sessions = with_session state.old.sessions.items session }) }
    ensures period { state.new.period ≡ state.old.period }
    ensures left { state.new.left ≡ state.old.left }
    ensures ends { state.new.topology ≡ state.old.topology }
    ensures refused { IfErr result OnlyNoMemory }
{
    if !is_named(state.sessions.as_slice(), session) {
        state.sessions.push(session)?;
    }
    Ok(())
}

/// Keeps what is asked of a node about a session, which is named by it, and gives the event.
pub fn keep_call(
    state: &mut ScriptState,
    node: u16,
    session: Session,
    call: LocalCall,
) -> Result<Event, Stop>
    requires { IsFitCall (call_of call) }
    ensures ok { OnOk result (draft_of state.new ≡ record (draft_of state.old) {
      sessions = with_session state.old.sessions.items session;
      events = map event_of state.old.events.items ++ AtNode node (call_of call) ∷ [];
    }) }
    ensures event { IfOk result (λ e. IsAdded (draft_of state.old).events e (draft_of state.new).events) }
    ensures refused { IfErr result OnlyNoMemory }
{
    if !is_named(state.sessions.as_slice(), session) {
        state.sessions.push(session)?;
    }
    Ok(keep(state, Event::Local { node, call }))
}
