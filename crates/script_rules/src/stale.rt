//! The rules of what is left over.
ghost use Rattle.std.specs.Prelude.{◌≡◌, ◌<◌, ◌≤◌, ◌↔◌, ◌*◌, ◌/◌, ◌^◌, [], Err, IfErr, IfSome, IsSome, IsTrue, OnOk, length};
ghost use Rattle.stale_state.specs.Kept.{stale_of};
ghost use Rattle.script_words.specs.Addresses.{addr_value};
ghost use Rattle.script_words.specs.Flows.{flow_value};
ghost use Rattle.script_words.specs.Sessions.{sender_value, session_value};
ghost use Rattle.script_rules.specs.Said.{draft_of};
ghost use Rattle.script_rules.specs.Fitness.{IsFitAt};
ghost use Rattle.script_rules.specs.LeftRefusals.{IsLeft, IsNotLeft};
ghost use Rattle.script_rules.specs.Refusals.{IsUntouched, Refuses};
ghost use Rattle.script_rules.specs.Asking.{AsksMemory};
ghost use Rattle.script_grammar.specs.Adds.{Adds, with_stale};
ghost use Rattle.script_grammar.specs.Draft.{end_number, lifetime_of_period, node_number, period_of, wall_lifetime_of_period};
ghost use Rattle.script_grammar.specs.Rules.{HasRoomForSession, IsEndOf, Keeps, KeepsAll};
ghost use Rattle.script_grammar.specs.Values.{IsFrom1To, IsStaleHopWallInRange, IsStalePathInRange, IsStaleSenderWallInRange, IsSub};
ghost use Rattle.script_grammar.specs.declared.line.ScriptLine.TheVariants as kind;

use crate::parts::is_before_events;
use crate::session::{has_room_for_session, name_session};
use crate::state::ScriptState;
use path_state::PathFact;
use rsvp_base::{Addr, EndName, Flow, Hop, Sender, Session};
use script_grammar::{Fault, StaleHopWallLine, StalePathLine, StaleSenderWallLine, Stop};
use stale_state::{Left, LeftErr};
use style_rules::{Target, Wall};

/// Adds a path that is left over.
pub fn add_path(state: &mut ScriptState, line: StalePathLine) -> Result<(), Stop>
    ensures ok { OnOk result (KeepsAll (Keeps (draft_of state.old) (kind.StalePath line)) × Adds (draft_of state.old) (kind.StalePath line) (draft_of state.new)) }
    ensures refused { IfErr result (Refuses (draft_of state.old) (kind.StalePath line)) }
    ensures asked { result ≡ Err Stop.NoMemory → AsksMemory (draft_of state.old) (kind.StalePath line) }
    ensures same { IfErr result (IsUntouched (draft_of state.old) (draft_of state.new)) }
{
    if !is_before_events(state) {
        return Err(Stop::Bad(Fault::Late));
    }
    let Some((session, sender, hop, tspec, left)) = path_values(state, &line) else {
        return Err(Stop::Bad(Fault::Range));
    };
    let Some((node, end)) = end_of(state, &line.node, &line.end) else {
        return Err(Stop::Bad(Fault::Name));
    };
    if state.left.has_path(node, session, sender) {
        return Err(Stop::Bad(Fault::Twice));
    }
    let fact = PathFact {
        session,
        sender,
        iface: state.topology.iface_of(end),
        hop: Hop {
            addr: hop,
            handle: 0,
        },
        tspec,
        police: false,
        adspec: None,
    };
    leave(state, node, session, Left::Path(fact), left)
}

/// Adds a blockade of a hop that is left over.
pub fn add_hop_wall(state: &mut ScriptState, line: StaleHopWallLine) -> Result<(), Stop>
    ensures ok { OnOk result (KeepsAll (Keeps (draft_of state.old) (kind.StaleHopWall line)) × Adds (draft_of state.old) (kind.StaleHopWall line) (draft_of state.new)) }
    ensures refused { IfErr result (Refuses (draft_of state.old) (kind.StaleHopWall line)) }
    ensures asked { result ≡ Err Stop.NoMemory → AsksMemory (draft_of state.old) (kind.StaleHopWall line) }
    ensures same { IfErr result (IsUntouched (draft_of state.old) (draft_of state.new)) }
{
    if !is_before_events(state) {
        return Err(Stop::Bad(Fault::Late));
    }
    let Some((session, hop, wall, left)) = hop_wall_values(state, &line) else {
        return Err(Stop::Bad(Fault::Range));
    };
    let Some((node, end)) = end_of(state, &line.node, &line.end) else {
        return Err(Stop::Bad(Fault::Name));
    };
    let target = Target::Hop(state.topology.iface_of(end), hop);
    if state.left.has_wall(node, session, target) {
        return Err(Stop::Bad(Fault::Twice));
    }
    leave(
        state,
        node,
        session,
        Left::Wall(session, target, wall),
        left,
    )
}

/// Adds a blockade of a sender that is left over.
pub fn add_sender_wall(state: &mut ScriptState, line: StaleSenderWallLine) -> Result<(), Stop>
    ensures ok { OnOk result (KeepsAll (Keeps (draft_of state.old) (kind.StaleSenderWall line)) × Adds (draft_of state.old) (kind.StaleSenderWall line) (draft_of state.new)) }
    ensures refused { IfErr result (Refuses (draft_of state.old) (kind.StaleSenderWall line)) }
    ensures asked { result ≡ Err Stop.NoMemory → AsksMemory (draft_of state.old) (kind.StaleSenderWall line) }
    ensures same { IfErr result (IsUntouched (draft_of state.old) (draft_of state.new)) }
{
    if !is_before_events(state) {
        return Err(Stop::Bad(Fault::Late));
    }
    let Some((session, sender, wall, left)) = sender_wall_values(state, &line) else {
        return Err(Stop::Bad(Fault::Range));
    };
    let Some(node) = state.nodes.find(line.node.bytes()) else {
        return Err(Stop::Bad(Fault::Name));
    };
    let node = node as u16;
    let target = Target::Sender(sender);
    if state.left.has_wall(node, session, target) {
        return Err(Stop::Bad(Fault::Twice));
    }
    leave(
        state,
        node,
        session,
        Left::Wall(session, target, wall),
        left,
    )
}

/// How long a path or a reservation lives, in milliseconds.
pub fn state_life(state: &ScriptState) -> u32
    ensures { result ≡ lifetime_of_period (period_of (draft_of state.now)) }
{
    21 * (state.refresh_period() / 4)
}

// How long a blockade lives, in milliseconds.
fn wall_life(state: &ScriptState) -> u32
    ensures { result ≡ wall_lifetime_of_period (period_of (draft_of state.now)) }
{
    4 * state.refresh_period()
}

/// What is left of a life of so many milliseconds.
pub fn left_of(life: u32, left: u128) -> Option<u32>
    ensures some { IsSome result ↔ IsFrom1To life left }
    ensures value { IfSome result (λ n. n ≡ left) }
{
    if left == 0 || left > u128::from(life) {
        return None;
    }
    Some(left as u32)
}

// The values of a line's words, where all are in range.
fn path_values(
    state: &ScriptState,
    line: &StalePathLine,
) -> Option<(Session, Sender, Addr, Flow, u32)>
    ensures some { IsSome result ↔ IsStalePathInRange (period_of (draft_of state.now)) line.now }
    ensures value { IfSome result (λ v. (v.0 ≡ session_value line.now.session) × (v.1 ≡ sender_value line.now.sender)
        × (v.2 ≡ addr_value line.now.hop) × (v.3 ≡ flow_value line.now.flow) × (v.4 ≡ line.now.left)) }
{
    Some((
        line.session.session()?,
        line.sender.sender()?,
        line.hop.addr()?,
        line.flow.flow()?,
        left_of(state_life(state), line.left)?,
    ))
}

// The value of the error that set a blockade: 2 for the rate, 3 for the packet size (RFC 2205, appendix B).
fn sub_of(sub: u128) -> Option<u16>
    ensures some { IsSome result ↔ IsSub sub }
    ensures value { IfSome result (λ n. n ≡ sub) }
{
    if sub == 2 || sub == 3 {
        return Some(sub as u16);
    }
    None
}

// The values of a line's words, where all are in range.
fn hop_wall_values(
    state: &ScriptState,
    line: &StaleHopWallLine,
) -> Option<(Session, Addr, Wall, u32)>
    ensures some { IsSome result ↔ IsStaleHopWallInRange (period_of (draft_of state.now)) line.now }
    ensures value { IfSome result (λ v. (v.0 ≡ session_value line.now.session) × (v.1 ≡ addr_value line.now.hop)
        × (v.2 ≡ record { flow = flow_value line.now.flow; sub = line.now.sub }) × (v.3 ≡ line.now.left)) }
{
    let session = line.session.session()?;
    let hop = line.hop.addr()?;
    let sub = sub_of(line.sub)?;
    let flow = line.flow.flow()?;
    let left = left_of(wall_life(state), line.left)?;
    Some((session, hop, Wall { flow, sub }, left))
}

// The values of a line's words, where all are in range.
fn sender_wall_values(
    state: &ScriptState,
    line: &StaleSenderWallLine,
) -> Option<(Session, Sender, Wall, u32)>
    ensures some { IsSome result ↔ IsStaleSenderWallInRange (period_of (draft_of state.now)) line.now }
    ensures value { IfSome result (λ v. (v.0 ≡ session_value line.now.session) × (v.1 ≡ sender_value line.now.sender)
        × (v.2 ≡ record { flow = flow_value line.now.flow; sub = line.now.sub }) × (v.3 ≡ line.now.left)) }
{
    let session = line.session.session()?;
    let sender = line.sender.sender()?;
    let sub = sub_of(line.sub)?;
    let flow = line.flow.flow()?;
    let left = left_of(wall_life(state), line.left)?;
    Some((session, sender, Wall { flow, sub }, left))
}

// A node and its end, where both were declared and the end is of the node.
fn end_of(state: &ScriptState, node: &EndName, end: &EndName) -> Option<(u16, u16)>
    ensures some { IsSome result ↔ IsEndOf (draft_of state.now) node.now end.now }
    ensures node { IfSome result (λ p. p.0 ≡ node_number (draft_of state.now) node.now) }
    ensures end { IfSome result (λ p. p.1 ≡ end_number (draft_of state.now) end.now) }
    ensures node_there { IfSome result (λ p. p.0 < length state.now.nodes) }
    ensures end_there { IfSome result (λ p. p.1 < length state.now.topology.ends) }
{
    let node = state.nodes.find(node.bytes())? as u16;
    let end = state.names.find(end.bytes())? as u16;
    if state.topology.node_of(end) != node {
        return None;
    }
    Some((node, end))
}

/// Keeps a fact that is left over at a node, and names its session.
pub fn leave(
    state: &mut ScriptState,
    node: u16,
    session: Session,
    fact: Left,
    left: u32,
) -> Result<(), Stop>
    requires there { node < length state.old.nodes }
    requires fit { IsFitAt (draft_of state.old) node (stale_of fact left) }
    ensures left { OnOk result (IsLeft (draft_of state.old) node session (stale_of fact left)) }
    ensures kept { OnOk result (draft_of state.new ≡ with_stale (draft_of state.old) node session (stale_of fact left)) }
    ensures refused { IfErr result (IsNotLeft (draft_of state.old) node session (stale_of fact left)) }
    ensures asked { result ≡ Err Stop.NoMemory → HasRoomForSession (draft_of state.old) session }
    ensures same { IfErr result (IsUntouched (draft_of state.old) (draft_of state.new)) }
{
    if !has_room_for_session(state, session) {
        return Err(Stop::Bad(Fault::Limit));
    }
    match state.left.add(state.topology.ends(), node, fact, left) {
        Ok(()) => name_session(state, session),
        Err(LeftErr::Full) => Err(Stop::Bad(Fault::Limit)),
        Err(LeftErr::Over(much)) => Err(Stop::Bad(Fault::Over(much))),
        Err(LeftErr::NoMemory) => Err(Stop::NoMemory),
    }
}
