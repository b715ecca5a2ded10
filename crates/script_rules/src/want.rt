//! The rules of `want` and `quit`.
ghost use Rattle.std.specs.Prelude.{◌≡◌, ◌≢◌, ◌≤◌, ◌↔◌, ◌∷◌, ◌++◌, [], IsTrue, IsSome, IfOk, IfSome, Err, IfErr, OnOk, length, map};
ghost use Rattle.std.specs.List.{All};
ghost use Rattle.rsvp_messages.specs.Units.{only};
ghost use Rattle.network_model.specs.Events.{AtNode};
ghost use Rattle.router_rules.specs.Inputs.{QuitAll};
ghost use Rattle.script_words.specs.Flows.{flow_value};
ghost use Rattle.script_words.specs.Sessions.{IsSender, IsSession, sender_value, session_value};
ghost use Rattle.script_rules.specs.Said.{draft_of};
ghost use Rattle.script_rules.specs.Events.{event_of};
ghost use Rattle.script_rules.specs.Refusals.{IsUntouched, OnlyNoMemory, Refuses};
ghost use Rattle.script_rules.specs.Asking.{AsksMemory};
ghost use Rattle.script_rules.specs.WantForms.{IsWantForm};
ghost use Rattle.script_grammar.specs.GivenEvents.{IsAdded};
ghost use Rattle.script_grammar.specs.Adds.{Adds, wanted, wants_at, with_want, with_wants, without_wants};
ghost use Rattle.script_grammar.specs.Draft.{node_number, with_session};
ghost use Rattle.script_grammar.specs.Rules.{AreDistinct, IsOfWantedStyle, IsWanting, Keeps, KeepsAll};
ghost use Rattle.script_grammar.specs.Values.{IsWantInRange};
ghost use Rattle.script_grammar.specs.declared.line.ScriptLine.TheVariants as kind;

use crate::listed::{are_in_range, senders_of};
use crate::own::{count_with, only};
use crate::sender_lists::are_distinct;
use crate::session::{has_room_for_session, keep_call};
use crate::state::ScriptState;
use crate::want_table::WantTable;
use network_model::{Event, LocalCall};
use rsvp_base::{Flow, Part, Sender, Senders, Session, StyleKind};
use script_grammar::{Fault, QuitLine, Stop, WantLine};
use tree_model::LocalWant;

const MOST_UNITS: usize = 16;

/// Adds what is wanted at a node. Memory is taken only behind the tests of its range and its node.
pub fn add_want(state: &mut ScriptState, line: WantLine) -> Result<Event, Stop>
    requires { IsWantForm line.style line.senders }
    ensures ok { OnOk result (KeepsAll (Keeps (draft_of state.old) (kind.Want line)) × Adds (draft_of state.old) (kind.Want line) (draft_of state.new)) }
    ensures event { IfOk result (λ e. IsAdded (draft_of state.old).events e (draft_of state.new).events) }
    ensures refused { IfErr result (Refuses (draft_of state.old) (kind.Want line)) }
    ensures asked { result ≡ Err Stop.NoMemory → AsksMemory (draft_of state.old) (kind.Want line) }
    ensures same { IfErr result (IsUntouched (draft_of state.old) (draft_of state.new)) }
{
    let Some((session, flow)) = want_values(&line) else {
        return Err(Stop::Bad(Fault::Range));
    };
    let Some(node) = state.nodes.find(line.node.bytes()) else {
        return Err(Stop::Bad(Fault::Name));
    };
    let node = node as u16;
    let senders = senders_of(state.alloc, line.senders.as_slice())?;
    if !are_distinct(senders.as_slice()) {
        return Err(Stop::Bad(Fault::Twice));
    }
    if !is_of_wanted_style(state, &line, node, session) {
        return Err(Stop::Bad(Fault::Style));
    }
    let Ok(names) = Senders::of(senders.as_slice()) else {
        return Err(Stop::Bad(Fault::Limit));
    };
    if !has_room_for_session(state, session) {
        return Err(Stop::Bad(Fault::Limit));
    }
    let count = count_with(state, node, session, line.style, &names, flow)?;
    if count > MOST_UNITS {
        return Err(Stop::Bad(Fault::Limit));
    }
    put(&mut state.wants, node, session, line.style, &names, flow)?;
    keep_call(
        state,
        node,
        session,
        LocalCall::Want {
            session,
            style: line.style,
            senders: names,
            flow,
            confirm: line.confirm,
        },
    )
}

/// Takes out what is wanted of a session at a node.
pub fn add_quit(state: &mut ScriptState, line: QuitLine) -> Result<Event, Stop>
    ensures ok { OnOk result (KeepsAll (Keeps (draft_of state.old) (kind.Quit line)) × Adds (draft_of state.old) (kind.Quit line) (draft_of state.new)) }
    ensures event { IfOk result (λ e. IsAdded (draft_of state.old).events e (draft_of state.new).events) }
    ensures refused { IfErr result (Refuses (draft_of state.old) (kind.Quit line)) }
    ensures asked { result ≡ Err Stop.NoMemory → AsksMemory (draft_of state.old) (kind.Quit line) }
    ensures same { IfErr result (IsUntouched (draft_of state.old) (draft_of state.new)) }
{
    let Some(session) = line.session.session() else {
        return Err(Stop::Bad(Fault::Range));
    };
    let Some(node) = wanting_node(state, &line, session) else {
        return Err(Stop::Bad(Fault::Name));
    };
    leave(state, node, session)
}

// Takes the wants of a session at a node out.
fn leave(state: &mut ScriptState, node: u16, session: Session) -> Result<Event, Stop>
    ensures ok { OnOk result (draft_of state.new ≡ record (draft_of state.old) {
      sessions = with_session state.old.sessions.items session;
      locals = without_wants (draft_of state.old).locals node session;
      events = map event_of state.old.events.items
          ++ AtNode node (QuitAll session) ∷ [];
    }) }
    ensures event { IfOk result (λ e. IsAdded (draft_of state.old).events e (draft_of state.new).events) }
    ensures refused { IfErr result OnlyNoMemory }
{
    state.wants.take_out(node, session);
    keep_call(state, node, session, LocalCall::Quit { session })
}

// The session and flow of a line, where these and its senders are in range.
fn want_values(line: &WantLine) -> Option<(Session, Flow)>
    ensures some { IsSome result ↔ IsWantInRange line.now }
    ensures value { IfSome result (λ v. (v.0 ≡ session_value line.now.session) × (v.1 ≡ flow_value line.now.flow)) }
{
    if !are_in_range(line.senders.as_slice()) {
        return None;
    }
    Some((line.session.session()?, line.flow.flow()?))
}

// Whether the wants of the line's session at its node are of its style.
fn is_of_wanted_style(state: &ScriptState, line: &WantLine, node: u16, session: Session) -> bool
    requires node { node ≡ node_number (draft_of state.now) line.now.node }
    requires session { session ≡ session_value line.now.session }
    ensures { IsTrue result ↔ IsOfWantedStyle (draft_of state.now) line.now }
{
    state.wants.are_of_style(node, session, line.style)
}

// Whether there are wants of the session at the node.
fn has_wants(wants: &WantTable, node: u16, session: Session) -> bool
    ensures { IsTrue result ↔ (wants_at wants.now node session ≢ []) }
{
    wants.count(node, session) > 0
}

// The node of a line, where it was declared and wants something of the line's session.
fn wanting_node(state: &ScriptState, line: &QuitLine, session: Session) -> Option<u16>
    requires { session ≡ session_value line.now.session }
    ensures some { IsSome result ↔ IsWanting (draft_of state.now) line.now }
    ensures value { IfSome result (λ n. n ≡ node_number (draft_of state.now) line.now.node) }
{
    let node = state.nodes.find(line.node.bytes())? as u16;
    if !wants_some(state, line, node, session) {
        return None;
    }
    Some(node)
}

// Whether something is wanted of the line's session at its node.
fn wants_some(state: &ScriptState, line: &QuitLine, node: u16, session: Session) -> bool
    requires node { node ≡ node_number (draft_of state.now) line.now.node }
    requires session { session ≡ session_value line.now.session }
    ensures { IsTrue result ↔ (wants_at state.now.wants (node_number (draft_of state.now) line.now.node) (session_value line.now.session) ≢ []) }
{
    has_wants(&state.wants, node, session)
}

// Puts a fixed want for each sender.
fn put_fixed(
    wants: &mut WantTable,
    node: u16,
    session: Session,
    senders: &[Sender],
    flow: Flow,
) -> Result<(), Stop>
    ensures ok { OnOk result (wants.new ≡ with_wants wants.old (map
        (λ x. record { node = node; session = session; style = StyleKind.Fixed; part = record { senders = only x; flow = flow } }) senders.now)) }
    ensures refused { IfErr result OnlyNoMemory }
{
    match senders {
        [] => Ok(()),
        [first, others @ ..] => {
            wants.put(LocalWant {
                node,
                session,
                style: StyleKind::Fixed,
                part: Part {
                    senders: only(*first),
                    flow,
                },
            })?;
            put_fixed(wants, node, session, others, flow)
        }
    }
}

// Puts what a line wants.
fn put(
    wants: &mut WantTable,
    node: u16,
    session: Session,
    style: StyleKind,
    names: &Senders,
    flow: Flow,
) -> Result<(), Stop>
    ensures ok { OnOk result (wants.new ≡ with_wants wants.old (wanted node session style names.now flow)) }
    ensures refused { IfErr result OnlyNoMemory }
{
    match style {
        StyleKind::Wild => put_one(wants, node, session, StyleKind::Wild, Senders::new(), flow),
        StyleKind::Fixed => put_fixed(wants, node, session, names.as_slice(), flow),
        StyleKind::Shared => put_one(wants, node, session, StyleKind::Shared, names.copy(), flow),
    }
}

// Puts a want of these senders together.
fn put_one(
    wants: &mut WantTable,
    node: u16,
    session: Session,
    style: StyleKind,
    senders: Senders,
    flow: Flow,
) -> Result<(), Stop>
    ensures ok { OnOk result (wants.new ≡ with_want wants.old (record { node = node; session = session; style = style; part = record { senders = senders; flow = flow } })) }
    ensures refused { IfErr result OnlyNoMemory }
{
    wants.put(LocalWant {
        node,
        session,
        style,
        part: Part { senders, flow },
    })?;
    Ok(())
}
