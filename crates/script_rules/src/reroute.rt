//! The rules of `reroute`.
ghost use Rattle.std.specs.Prelude.{◌≡◌, ◌↔◌, ◌∷◌, ◌++◌, [], Err, IfErr, IfOk, IsTrue, OnOk, map};
ghost use Rattle.std.specs.List.{All, list_any};
ghost use Rattle.tree_model.specs.Trees.{of_tree};
ghost use Rattle.network_model.specs.Events.{Reroutes};
ghost use Rattle.network_model.specs.Moves.{CanMove};
ghost use Rattle.script_rules.specs.Said.{draft_of};
ghost use Rattle.script_rules.specs.Events.{event_of};
ghost use Rattle.script_rules.specs.Refusals.{IsUntouched, Refuses};
ghost use Rattle.script_rules.specs.Asking.{AsksMemory, IsDeclared};
ghost use Rattle.script_grammar.specs.GivenEvents.{IsAdded};
ghost use Rattle.script_rules.specs.TreeRefusals.{IsTreeRefused, moved_to};
ghost use Rattle.script_grammar.specs.Adds.{Adds};
ghost use Rattle.script_grammar.specs.Draft.{routing};
ghost use Rattle.script_grammar.specs.Rules.{Keeps, KeepsAll};
ghost use Rattle.script_grammar.specs.Values.{hop_value};
ghost use Rattle.script_grammar.specs.declared.line.ScriptLine.TheVariants as kind;

use crate::hop::{closed, hop_of, tree_of};
use crate::keeping::keep;
use crate::link::number;
use crate::state::ScriptState;
use network_model::Event;
use rsvp_base::{Addr, NoMemory};
use script_grammar::{Fault, HopEnds, RerouteLine, Stop};
use tree_routing::{HopErr, LinkHop, Routing};

/// Puts a tree in the place of the one in force. Memory is taken only behind the tests of its range, its ends and its source.
pub fn add_reroute(state: &mut ScriptState, line: RerouteLine) -> Result<Event, Stop>
    ensures ok { OnOk result (KeepsAll (Keeps (draft_of state.old) (kind.Reroute line)) × Adds (draft_of state.old) (kind.Reroute line) (draft_of state.new)) }
    ensures event { IfOk result (λ e. IsAdded (draft_of state.old).events e (draft_of state.new).events) }
    ensures refused { IfErr result (Refuses (draft_of state.old) (kind.Reroute line)) }
    ensures asked { result ≡ Err Stop.NoMemory → AsksMemory (draft_of state.old) (kind.Reroute line) }
    ensures same { IfErr result (IsUntouched (draft_of state.old) (draft_of state.new)) }
{
    let Some((group, source)) = tree_of(line.group, line.source) else {
        return Err(Stop::Bad(Fault::Range));
    };
    if !are_declared(state, line.hops.as_slice()) {
        return Err(Stop::Bad(Fault::Name));
    }
    if state.topology.owner(source).is_none() {
        return Err(Stop::Bad(Fault::Name));
    }
    if !state.topology.has_tree(group, source) {
        return Err(Stop::Bad(Fault::Name));
    }
    let hops = hops_between(state, line.hops.as_slice())?;
    let routing = moved(state, group, source, hops.as_slice())?;
    Ok(put(state, group, source, hops, routing))
}

// Whether the ends of all these hops were declared.
fn are_declared(state: &ScriptState, pairs: &[HopEnds]) -> bool
    ensures { IsTrue result ↔ All (IsDeclared (draft_of state.now)) pairs.now }
{
    for ends in pairs {
        let Some(_hop) = hop_of(state, ends) else {
            return false;
        };
    }
    true
}

/// The hops between these ends, each as `hop_between` has it. `NoMemory`: there was no room for them.
pub fn hops_between(state: &ScriptState, pairs: &[HopEnds]) -> Result<Vec<LinkHop>, NoMemory>
    ensures { IfOk result (λ hops. hops.items ≡ map (hop_value (draft_of state.now)) pairs.now) }
{
    let mut hops = Vec::new(state.alloc);
    for ends in pairs {
        hops.push(hop_between(state, ends))?;
    }
    Ok(hops)
}

/// The hop between two ends; an end that was not declared has the number 0.
pub fn hop_between(state: &ScriptState, ends: &HopEnds) -> LinkHop
    ensures { result ≡ hop_value (draft_of state.now) ends.now }
{
    LinkHop {
        from: number(state, &ends.from),
        to: number(state, &ends.to),
    }
}

// The routing with these hops as the tree of a group and source. The declared one is closed where no tree moved yet.
fn moved(state: &ScriptState, group: Addr, source: Addr, hops: &[LinkHop]) -> Result<Routing, Stop>
    ensures moved { IfOk result (λ r. r ≡ moved_to (draft_of state.now) group source hops.now) }
    ensures can { OnOk result (CanMove (routing (draft_of state.now)) group source hops.now) }
    ensures refused { IfErr result (IsTreeRefused (draft_of state.now) group source hops.now) }
{
    match &state.force {
        Some(force) => moved_in(state, force, group, source, hops),
        None => {
            let declared = state.topology.copy()?.close()?;
            moved_in(state, &declared, group, source, hops)
        }
    }
}

// The same, where this routing is in force.
fn moved_in(
    state: &ScriptState,
    force: &Routing,
    group: Addr,
    source: Addr,
    hops: &[LinkHop],
) -> Result<Routing, Stop>
    requires { force.now ≡ routing (draft_of state.now) }
    ensures moved { IfOk result (λ r. r ≡ moved_to (draft_of state.now) group source hops.now) }
    ensures can { OnOk result (CanMove (routing (draft_of state.now)) group source hops.now) }
    ensures refused { IfErr result (IsTreeRefused (draft_of state.now) group source hops.now) }
{
    if !force.has_room_for_tree(group, source, hops) {
        return Err(Stop::Bad(Fault::Limit));
    }
    // The proof sees here that the ends of its hops are there.
    let _nodes = force.nodes();
    match force.reroute(group, source, hops) {
        Ok(routing) => Ok(routing),
        Err(HopErr::NotTree) => Err(Stop::Bad(Fault::NotTree)),
        Err(HopErr::Loop { group, from, to }) => {
            Err(Stop::Bad(closed(state, group, LinkHop { from, to })))
        }
        Err(HopErr::NoMemory) => Err(Stop::NoMemory),
    }
}

// Keeps that a tree moves, and the routing that is in force from then on.
fn put(
    state: &mut ScriptState,
    group: Addr,
    source: Addr,
    hops: Vec<LinkHop>,
    routing: Routing,
) -> Event
    requires { routing ≡ moved_to (draft_of state.old) group source hops.items }
    ensures ok { (draft_of state.new ≡ record (draft_of state.old) {
      force = (moved_to (draft_of state.old) group source hops.items).hops;
      events = map event_of state.old.events.items ++ Reroutes group source hops.items ∷ [];
    }) }
    ensures event { IsAdded (draft_of state.old).events result (draft_of state.new).events }
{
    let event = keep(
        state,
        Event::Reroute {
            group,
            source,
            hops,
        },
    );
    state.force = Some(routing);
    event
}
