//! The rules of `send`, `advert` and `drop`.
ghost use Rattle.std.specs.Prelude.{◌≡◌, ◌≤◌, ◌↔◌, ◌∷◌, ◌++◌, ◌+◌, [], IsTrue, IsSome, IfSome, Err, IfErr, IfOk, OnOk, Some, count_by, length, map, not, true};
ghost use Rattle.std.specs.List.{filter, list_any};
ghost use Rattle.router_rules.specs.Inputs.{AdvertAs, DropAs, SendAs};
ghost use Rattle.network_model.specs.Events.{AtNode};
ghost use Rattle.script_words.specs.Flows.{flow_value};
ghost use Rattle.script_words.specs.Sessions.{sender_value, session_value};
ghost use Rattle.tree_model.specs.Networks.{owner};
ghost use Rattle.tree_model.specs.Wants.{live, of_session};
ghost use Rattle.script_rules.specs.Said.{draft_of};
ghost use Rattle.script_rules.specs.Events.{event_of};
ghost use Rattle.script_rules.specs.Refusals.{IsUntouched, OnlyNoMemory, Refuses};
ghost use Rattle.script_rules.specs.Asking.{AsksMemory};
ghost use Rattle.script_grammar.specs.GivenEvents.{IsAdded};
ghost use Rattle.script_grammar.specs.Adds.{Adds, is_sender, sends, with_sender, without_sender};
ghost use Rattle.script_grammar.specs.Draft.{node_number, with_session};
ghost use Rattle.script_grammar.specs.Rules.{HasRoomForSession, IsNode, Keeps, KeepsAll, is_sender_at};
ghost use Rattle.script_grammar.specs.Values.{IsDropInRange, IsSendInRange};
ghost use Rattle.script_grammar.specs.declared.line.ScriptLine.TheVariants as kind;

use crate::session::{has_room_for_session, is_session, keep_call};
use crate::state::ScriptState;
use network_model::{Event, LocalCall};
use rsvp_base::{Addr, EndName, Flow, Sender, Session};
use script_grammar::{Fault, SendLine, SenderLine, Stop};
use tree_model::LocalSender;

const MOST_SENDERS: usize = 16;

/// Adds a sender.
pub fn add_send(state: &mut ScriptState, line: SendLine) -> Result<Event, Stop>
    ensures ok { OnOk result (KeepsAll (Keeps (draft_of state.old) (kind.Send line)) × Adds (draft_of state.old) (kind.Send line) (draft_of state.new)) }
    ensures event { IfOk result (λ e. IsAdded (draft_of state.old).events e (draft_of state.new).events) }
    ensures refused { IfErr result (Refuses (draft_of state.old) (kind.Send line)) }
    ensures asked { result ≡ Err Stop.NoMemory → AsksMemory (draft_of state.old) (kind.Send line) }
    ensures same { IfErr result (IsUntouched (draft_of state.old) (draft_of state.new)) }
{
    let Some((session, sender, flow)) = send_values(&line) else {
        return Err(Stop::Bad(Fault::Range));
    };
    let Some(node) = own_node(state, &line.node, sender.addr) else {
        return Err(Stop::Bad(Fault::Name));
    };
    let new = LocalSender {
        node,
        session,
        sender,
    };
    if !has_room_for_session(state, session) || !has_room_for_sender(state, new) {
        return Err(Stop::Bad(Fault::Limit));
    }
    begin(state, new, flow)
}

/// Has a sender advertised.
pub fn add_advert(state: &mut ScriptState, line: SenderLine) -> Result<Event, Stop>
    ensures ok { OnOk result (KeepsAll (Keeps (draft_of state.old) (kind.Advert line)) × Adds (draft_of state.old) (kind.Advert line) (draft_of state.new)) }
    ensures event { IfOk result (λ e. IsAdded (draft_of state.old).events e (draft_of state.new).events) }
    ensures refused { IfErr result (Refuses (draft_of state.old) (kind.Advert line)) }
    ensures asked { result ≡ Err Stop.NoMemory → AsksMemory (draft_of state.old) (kind.Advert line) }
    ensures same { IfErr result (IsUntouched (draft_of state.old) (draft_of state.new)) }
{
    let Some((session, sender)) = drop_values(&line) else {
        return Err(Stop::Bad(Fault::Range));
    };
    let Some(node) = state.nodes.find(line.node.bytes()) else {
        return Err(Stop::Bad(Fault::Name));
    };
    let one = LocalSender {
        node: node as u16,
        session,
        sender,
    };
    if !sends_at(state.senders.as_slice(), one) {
        return Err(Stop::Bad(Fault::Name));
    }
    keep_call(
        state,
        one.node,
        session,
        LocalCall::Advert { session, sender },
    )
}

/// Ends a sender.
pub fn add_drop(state: &mut ScriptState, line: SenderLine) -> Result<Event, Stop>
    ensures ok { OnOk result (KeepsAll (Keeps (draft_of state.old) (kind.Drop line)) × Adds (draft_of state.old) (kind.Drop line) (draft_of state.new)) }
    ensures event { IfOk result (λ e. IsAdded (draft_of state.old).events e (draft_of state.new).events) }
    ensures refused { IfErr result (Refuses (draft_of state.old) (kind.Drop line)) }
    ensures asked { result ≡ Err Stop.NoMemory → AsksMemory (draft_of state.old) (kind.Drop line) }
    ensures same { IfErr result (IsUntouched (draft_of state.old) (draft_of state.new)) }
{
    let Some((session, sender)) = drop_values(&line) else {
        return Err(Stop::Bad(Fault::Range));
    };
    let Some(node) = state.nodes.find(line.node.bytes()) else {
        return Err(Stop::Bad(Fault::Name));
    };
    let gone = LocalSender {
        node: node as u16,
        session,
        sender,
    };
    if !sends_at(state.senders.as_slice(), gone) {
        return Err(Stop::Bad(Fault::Name));
    }
    end(state, gone)
}

// The values of a line's words, where all are in range.
fn send_values(line: &SendLine) -> Option<(Session, Sender, Flow)>
    ensures some { IsSome result ↔ IsSendInRange line.now }
    ensures value { IfSome result (λ v. (v.0 ≡ session_value line.now.session) × (v.1 ≡ sender_value line.now.sender) × (v.2 ≡ flow_value line.now.flow)) }
{
    Some((
        line.session.session()?,
        line.sender.sender()?,
        line.flow.flow()?,
    ))
}

// The values of a line's words, where all are in range.
fn drop_values(line: &SenderLine) -> Option<(Session, Sender)>
    ensures some { IsSome result ↔ IsDropInRange line.now }
    ensures value { IfSome result (λ v. (v.0 ≡ session_value line.now.session) × (v.1 ≡ sender_value line.now.sender)) }
{
    Some((line.session.session()?, line.sender.sender()?))
}

// The node of this name, where it was declared and has this address.
fn own_node(state: &ScriptState, name: &EndName, addr: Addr) -> Option<u16>
    ensures some { IsSome result ↔ (IsNode (draft_of state.now) name.now × (owner state.now.topology.ends addr ≡ Some (node_number (draft_of state.now) name.now))) }
    ensures value { IfSome result (λ n. n ≡ node_number (draft_of state.now) name.now) }
{
    let node = state.nodes.find(name.bytes())? as u16;
    if state.topology.owner(addr)? != node {
        return None;
    }
    Some(node)
}

// Whether it is this sender of the session.
fn is_sender(session: Session, sender: Sender, one: &LocalSender) -> bool
    ensures { result ≡ is_sender session sender one.now }
{
    is_session(session, one.session) && sender == one.sender
}

// Whether the sender sends.
fn sends(senders: &[LocalSender], session: Session, sender: Sender) -> bool
    ensures { result ≡ sends senders.now session sender }
{
    senders.iter().any(|one| is_sender(session, sender, one))
}

// Whether the sender sends at its node.
fn sends_at(senders: &[LocalSender], sought: LocalSender) -> bool
    ensures { result ≡ list_any (is_sender_at sought.node sought.session sought.sender) senders.now }
{
    senders.iter().any(|one| one.node == sought.node
        && is_sender(sought.session, sought.sender, one))
}

// How many senders a session has.
fn live_count(senders: &[LocalSender], session: Session) -> usize
    ensures { result ≡ count_by (of_session session) senders.now }
{
    senders
        .iter()
        .filter(|one| is_session(session, one.session))
        .count()
}

// Whether the session has no more than 16 senders with this one.
fn has_room_for_sender(state: &ScriptState, new: LocalSender) -> bool
    ensures { IsTrue result ↔ (length (live (with_sender (draft_of state.now).locals new.node new.session new.sender) new.session) ≤ 16) }
{
    let senders = state.senders.as_slice();
    let live = live_count(senders, new.session);
    if sends(senders, new.session, new.sender) {
        live <= MOST_SENDERS
    } else {
        live < MOST_SENDERS
    }
}

// Keeps a sender.
fn begin(state: &mut ScriptState, new: LocalSender, flow: Flow) -> Result<Event, Stop>
    ensures ok { OnOk result (draft_of state.new ≡ record (draft_of state.old) {
      sessions = with_session state.old.sessions.items new.session;
      locals = with_sender (draft_of state.old).locals new.node new.session new.sender;
      events = map event_of state.old.events.items
          ++ AtNode new.node (SendAs new.session new.sender flow) ∷ [];
    }) }
    ensures event { IfOk result (λ e. IsAdded (draft_of state.old).events e (draft_of state.new).events) }
    ensures refused { IfErr result OnlyNoMemory }
{
    if !sends(state.senders.as_slice(), new.session, new.sender) {
        state.senders.push(new)?;
    }
    let LocalSender {
        node,
        session,
        sender,
    } = new;
    keep_call(
        state,
        node,
        session,
        LocalCall::Send {
            session,
            sender,
            flow,
        },
    )
}

// Takes a sender out.
fn end(state: &mut ScriptState, gone: LocalSender) -> Result<Event, Stop>
    ensures ok { OnOk result (draft_of state.new ≡ record (draft_of state.old) {
      sessions = with_session state.old.sessions.items gone.session;
      locals = without_sender (draft_of state.old).locals gone.session gone.sender;
      events = map event_of state.old.events.items
          ++ AtNode gone.node (DropAs gone.session gone.sender) ∷ [];
    }) }
    ensures event { IfOk result (λ e. IsAdded (draft_of state.old).events e (draft_of state.new).events) }
    ensures refused { IfErr result OnlyNoMemory }
{
    let LocalSender {
        node,
        session,
        sender,
    } = gone;
    take_out(&mut state.senders, session, sender);
    keep_call(state, node, session, LocalCall::Gone { session, sender })
}

// Takes a sender out of those that send.
fn take_out(senders: &mut Vec<LocalSender>, session: Session, sender: Sender)
    ensures { senders.new.items ≡ filter (λ e. not (is_sender session sender e)) senders.old.items }
{
    senders.retain(|one| !is_sender(session, sender, one));
}
