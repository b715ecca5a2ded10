//! What happens is kept: the counts that lines ask for, and for proofs all of it.
ghost use Rattle.std.specs.Prelude.{◌≡◌, ◌↔◌, ◌++◌, ◌∷◌, [], IsTrue, false, map, true};
ghost use Rattle.router_rules.specs.Inputs.{Arrival};
ghost use Rattle.script_grammar.specs.GivenEvents.{IsAdded, IsRead};
ghost use Rattle.network_model.specs.Happenings.{IsFitEvent, event_with};
ghost use Rattle.script_grammar.specs.Rules.{HasRoomForAdverts, asks_adverts, HasRoomForReport, is_report};
ghost use Rattle.script_rules.specs.Events.{arrival_of, event_of};
ghost use Rattle.script_rules.specs.Said.{draft_of};
ghost use Rattle.network_model.specs.Events.{ReportsAdverts};

use crate::state::ScriptState;
use message_codec::decode;
use network_model::Event;
use rsvp_messages::{Message, MsgErr};

const MOST_REPORTS: usize = 16;

const MOST_ADVERTS: usize = 16;

/// Whether there is room for one more report.
pub fn has_room_for_report(state: &ScriptState) -> bool
    ensures { IsTrue result ↔ HasRoomForReport (draft_of state.now) }
{
    state.reports < MOST_REPORTS
}

/// Whether there is room for one more line that asks what the paths offer.
pub fn has_room_for_adverts(state: &ScriptState) -> bool
    ensures { IsTrue result ↔ HasRoomForAdverts (draft_of state.now) }
{
    state.adverts < MOST_ADVERTS
}

/// Keeps an event that is no report, and gives it back.
pub fn keep(state: &mut ScriptState, event: Event) -> Event
    requires fit { IsFitEvent event }
    requires other { (a : Arrival) → is_report (event_with a event) ≡ false }
    requires quiet { (a : Arrival) → asks_adverts (event_with a event) ≡ false }
    ensures ok { (a : Arrival) × IsRead event a × (draft_of state.new ≡ record (draft_of state.old) { events = map event_of state.old.events.items ++ event_with a event ∷ [] }) }
    ensures event { IsAdded (draft_of state.old).events result (draft_of state.new).events }
{
    let read = read_of(&event);
    state.events = state.events.and(&event, &read);
    state.begun = true;
    event
}

/// Keeps a report, for which there is room, and gives it back.
pub fn keep_report(state: &mut ScriptState, event: Event) -> Event
    requires fit { IsFitEvent event }
    requires report { (a : Arrival) → is_report (event_with a event) ≡ true }
    requires quiet { (a : Arrival) → asks_adverts (event_with a event) ≡ false }
    requires room { HasRoomForReport (draft_of state.old) }
    ensures ok { (a : Arrival) × IsRead event a × (draft_of state.new ≡ record (draft_of state.old) { events = map event_of state.old.events.items ++ event_with a event ∷ [] }) }
    ensures event { IsAdded (draft_of state.old).events result (draft_of state.new).events }
{
    let read = read_of(&event);
    state.events = state.events.and(&event, &read);
    state.begun = true;
    state.reports += 1;
    event
}

/// Keeps that it is asked what the paths offer, for which there is room, and gives the event.
pub fn keep_adverts(state: &mut ScriptState) -> Event
    requires { HasRoomForAdverts (draft_of state.old) }
    ensures ok { draft_of state.new ≡ record (draft_of state.old) { events = map event_of state.old.events.items ++ ReportsAdverts ∷ [] } }
    ensures event { IsAdded (draft_of state.old).events result (draft_of state.new).events }
{
    let event = Event::Adverts;
    state.events = state.events.and(&event, &None);
    state.begun = true;
    state.adverts += 1;
    event
}

// What the bytes of an event spell, or why they spell nothing, if it has any.
#[inline(always)]
fn read_of(event: &Event) -> Option<Result<Message, MsgErr>>
    ensures { IsRead event.now (arrival_of result) }
{
    match event {
        Event::Inject { bytes, .. } => Some(decode(bytes.as_slice())),
        _ => None,
    }
}
