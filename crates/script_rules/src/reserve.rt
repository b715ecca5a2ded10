//! The rules of reservations that are left over.
ghost use Rattle.std.specs.Prelude.{◌≡◌, ◌<◌, ◌≤◌, ◌↔◌, Err, IfErr, IfSome, IsSome, IsTrue, OnOk, length, map};
ghost use Rattle.rsvp_base.specs.Orders.{names_from};
ghost use Rattle.rsvp_base.specs.Styles.{unit_of_first};
ghost use Rattle.rsvp_base.specs.Table.{keys, size};
ghost use Rattle.script_words.specs.Addresses.{addr_value};
ghost use Rattle.script_words.specs.Flows.{flow_value};
ghost use Rattle.script_words.specs.Sessions.{session_value};
ghost use Rattle.tree_model.specs.Networks.{node_of};
ghost use Rattle.script_rules.specs.Said.{draft_of};
ghost use Rattle.script_rules.specs.StaleForms.{IsResvForm};
ghost use Rattle.script_rules.specs.Refusals.{IsUntouched, Refuses};
ghost use Rattle.script_rules.specs.Asking.{AsksMemory};
ghost use Rattle.script_grammar.specs.Adds.{Adds};
ghost use Rattle.script_grammar.specs.Draft.{end_number, period_of};
ghost use Rattle.script_grammar.specs.Rules.{IsListOfStyle, IsNewResv, Keeps, KeepsAll, sender_list};
ghost use Rattle.script_grammar.specs.Values.{IsStaleResvInRange};
ghost use Rattle.script_grammar.specs.declared.line.ScriptLine.TheVariants as kind;

use crate::listed::{are_in_range, senders_of};
use crate::parts::is_before_events;
use crate::sender_lists::are_distinct;
use crate::stale::{leave, left_of, state_life};
use crate::state::ScriptState;
use resv_state::ResvFact;
use rsvp_base::{Addr, Flow, Part, Sender, Senders, Session, StyleKind, Unit};
use script_grammar::{Fault, StaleResvLine, Stop};
use stale_state::Left;

/// Adds a reservation that is left over. Memory is taken only behind the tests of its range and its end.
pub fn add_resv(state: &mut ScriptState, line: StaleResvLine) -> Result<(), Stop>
    requires { IsResvForm line.style line.senders }
    ensures ok { OnOk result (KeepsAll (Keeps (draft_of state.old) (kind.StaleResv line)) × Adds (draft_of state.old) (kind.StaleResv line) (draft_of state.new)) }
    ensures refused { IfErr result (Refuses (draft_of state.old) (kind.StaleResv line)) }
    ensures asked { result ≡ Err Stop.NoMemory → AsksMemory (draft_of state.old) (kind.StaleResv line) }
    ensures same { IfErr result (IsUntouched (draft_of state.old) (draft_of state.new)) }
{
    if !is_before_events(state) {
        return Err(Stop::Bad(Fault::Late));
    }
    let Some((session, next, flow, left)) = resv_values(state, &line) else {
        return Err(Stop::Bad(Fault::Range));
    };
    let Some(end) = state.names.find(line.end.bytes()) else {
        return Err(Stop::Bad(Fault::Name));
    };
    let end = end as u16;
    let senders = senders_of(state.alloc, line.senders.as_slice())?;
    if !is_new(state, &line, senders.as_slice(), end, session, next) {
        return Err(Stop::Bad(Fault::Twice));
    }
    let Some(senders) = names_of(line.style, senders.as_slice()) else {
        return Err(Stop::Bad(Fault::Limit));
    };
    let fact = ResvFact {
        session,
        iface: state.topology.iface_of(end),
        next,
        part: Part { senders, flow },
        confirm: None,
    };
    let node = node_of(state, end);
    leave(state, node, session, Left::Resv(line.style, fact), left)
}

// The values of a line's other words, where these and its senders are in range.
fn resv_values(state: &ScriptState, line: &StaleResvLine) -> Option<(Session, Addr, Flow, u32)>
    ensures some { IsSome result ↔ IsStaleResvInRange (period_of (draft_of state.now)) line.now }
    ensures value { IfSome result (λ v. (v.0 ≡ session_value line.now.session) × (v.1 ≡ addr_value line.now.next) × (v.2 ≡ flow_value line.now.flow) × (v.3 ≡ line.now.left)) }
{
    if !are_in_range(line.senders.as_slice()) {
        return None;
    }
    Some((
        line.session.session()?,
        line.next.addr()?,
        line.flow.flow()?,
        left_of(state_life(state), line.left)?,
    ))
}

// The node of an end that was declared.
fn node_of(state: &ScriptState, end: u16) -> u16
    requires { end < length state.now.topology.ends }
    ensures node { result ≡ node_of state.now.topology.ends end }
    ensures there { result < length state.now.nodes }
{
    state.topology.node_of(end)
}

// The unit under which a reservation of a style for these senders stands. None exactly where a fixed filter does not name one
// sender.
fn unit_of(style: StyleKind, senders: &[Sender]) -> Option<Unit>
    ensures some { IsSome result ↔ IsListOfStyle style senders.now }
    ensures unit { IfSome result (λ u. u ≡ unit_of_first style (keys (names_from senders.now))) }
{
    match style {
        StyleKind::Wild => Some(Unit::One),
        StyleKind::Fixed => match senders {
            [sender] => Some(Unit::Of(*sender)),
            _ => None,
        },
        StyleKind::Shared => Some(Unit::One),
    }
}

// Whether no sender of a line stands twice, and no reservation of its key is left over at the node of the end. A fixed filter
// of several senders has no key.
fn is_new(
    state: &ScriptState,
    line: &StaleResvLine,
    senders: &[Sender],
    end: u16,
    session: Session,
    next: Addr,
) -> bool
    requires senders { senders.now ≡ sender_list line.now.senders }
    requires end { end ≡ end_number (draft_of state.now) line.now.end }
    requires there { end < length state.now.topology.ends }
    requires session { session ≡ session_value line.now.session }
    requires next { next ≡ addr_value line.now.next }
    ensures { IsTrue result ↔ IsNewResv (draft_of state.now) line.now }
{
    if !are_distinct(senders) {
        return false;
    }
    let Some(unit) = unit_of(line.style, senders) else {
        return true;
    };
    let iface = state.topology.iface_of(end);
    let node = node_of(state, end);
    !state
        .left
        .has_resv(node, line.style, session, iface, next, unit)
}

// The senders of a reservation of a style: at most 16, and one alone for a fixed filter.
fn names_of(style: StyleKind, senders: &[Sender]) -> Option<Senders>
    ensures some { IsSome result ↔ ((size (names_from senders.now) ≤ 16) × IsListOfStyle style senders.now) }
    ensures value { IfSome result (λ names. names ≡ names_from senders.now) }
{
    unit_of(style, senders)?;
    Senders::of(senders).ok()
}
