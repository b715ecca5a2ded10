//! The rules of `link`.
ghost use Rattle.std.specs.Prelude.{◌≡◌, ◌≤◌, ◌↔◌, ◌+◌, ◌++◌, ℕ, [], Err, IfErr, IsTrue, OnOk, length};
ghost use Rattle.std.specs.List.{list_all, list_any};
ghost use Rattle.rsvp_base.specs.Members.{In};
ghost use Rattle.tree_model.specs.Networks.{link_of};
ghost use Rattle.script_rules.specs.Said.{draft_of};
ghost use Rattle.script_rules.specs.LinkEnds.{are_apart, is_at, is_known, node_at};
ghost use Rattle.script_rules.specs.Refusals.{IsUntouched, Refuses};
ghost use Rattle.script_rules.specs.Asking.{AsksMemory};
ghost use Rattle.script_grammar.specs.Adds.{Adds, link_value};
ghost use Rattle.script_grammar.specs.Draft.{end_named, end_number};
ghost use Rattle.script_grammar.specs.Rules.{Keeps, KeepsAll};
ghost use Rattle.script_grammar.specs.declared.line.ScriptLine.TheVariants as kind;

use crate::parts::only_declares;
use crate::state::ScriptState;
use arrayvec::ArrayVec;
use rsvp_base::EndName;
use script_grammar::{Fault, LinkEnds, Stop};
use tree_routing::Topology;

/// Adds a link.
pub fn add_link(state: &mut ScriptState, names: LinkEnds) -> Result<(), Stop>
    ensures ok { OnOk result (KeepsAll (Keeps (draft_of state.old) (kind.Link names)) × Adds (draft_of state.old) (kind.Link names) (draft_of state.new)) }
    ensures refused { IfErr result (Refuses (draft_of state.old) (kind.Link names)) }
    ensures asked { result ≡ Err Stop.NoMemory → AsksMemory (draft_of state.old) (kind.Link names) }
    ensures same { IfErr result (IsUntouched (draft_of state.old) (draft_of state.new)) }
{
    if !only_declares(state) {
        return Err(Stop::Bad(Fault::Late));
    }
    if !are_apart(state, names.as_slice()) {
        return Err(Stop::Bad(Fault::Range));
    }
    if !are_known(state, names.as_slice()) {
        return Err(Stop::Bad(Fault::Name));
    }
    let ends = numbers(state, names.as_slice());
    if !are_in_no_link(&state.topology, ends.as_slice()) {
        return Err(Stop::Bad(Fault::Twice));
    }
    if !state.topology.has_room_for_link() {
        return Err(Stop::Bad(Fault::Limit));
    }
    state.topology.add_link_of(ends.as_slice())?;
    Ok(())
}

// The number of an end, where it was declared.
fn end_named(state: &ScriptState, name: &EndName) -> Option<u16>
    ensures { result ≡ end_named (draft_of state.now) name.now }
{
    let end = state.names.find(name.bytes())?;
    Some(end as u16)
}

// The node of an end, where it was declared.
fn node_at(state: &ScriptState, name: &EndName) -> Option<u16>
    ensures { result ≡ node_at (draft_of state.now) name.now }
{
    let end = end_named(state, name)?;
    Some(state.topology.node_of(end))
}

// Whether the end was declared, and is of this node.
fn is_at(state: &ScriptState, node: Option<u16>, name: &EndName) -> bool
    ensures { result ≡ is_at (draft_of state.now) node name.now }
{
    match (node, node_at(state, name)) {
        (Some(one), Some(other)) => one == other,
        _ => false,
    }
}

// Whether one of the ends was declared, and is of this node.
fn is_at_one(state: &ScriptState, node: Option<u16>, names: &[EndName]) -> bool
    ensures { result ≡ list_any (is_at (draft_of state.now) node) names.now }
{
    match names {
        [] => false,
        [first, others @ ..] => is_at(state, node, first) || is_at_one(state, node, others),
    }
}

// Whether no two of the ends that were declared are of one node.
fn are_apart(state: &ScriptState, names: &[EndName]) -> bool
    ensures { result ≡ are_apart (draft_of state.now) names.now }
{
    match names {
        [] => true,
        [first, others @ ..] => {
            !is_at_one(state, node_at(state, first), others) && are_apart(state, others)
        }
    }
}

// Whether each of these ends was declared.
fn are_known(state: &ScriptState, names: &[EndName]) -> bool
    ensures { result ≡ list_all (is_known (draft_of state.now)) names.now }
{
    match names {
        [] => true,
        [first, others @ ..] => { end_named(state, first).is_some() && are_known(state, others) }
    }
}

/// The number of an end; 0 where it was not declared.
pub(crate) fn number(state: &ScriptState, name: &EndName) -> u16
    ensures { result ≡ end_number (draft_of state.now) name.now }
{
    match end_named(state, name) {
        Some(end) => end,
        None => 0,
    }
}

// The numbers of these ends.
fn numbers(state: &ScriptState, names: &[EndName]) -> ArrayVec<u16, 8>
    requires { length names.now ≤ 8 }
    ensures { result.items ≡ link_value (draft_of state.now) names.now }
{
    let mut ends = ArrayVec::new();
    add_numbers(state, names, &mut ends);
    ends
}

// Adds the numbers of these ends.
fn add_numbers(state: &ScriptState, names: &[EndName], ends: &mut ArrayVec<u16, 8>)
    requires { length ends.old.items + length names.now ≤ 8 }
    ensures { ends.new.items ≡ ends.old.items ++ link_value (draft_of state.now) names.now }
{
    match names {
        [] => {}
        [first, others @ ..] => {
            ends.push(number(state, first));
            add_numbers(state, others, ends);
        }
    }
}

// Whether none of the ends is in a link.
fn are_in_no_link(net: &Topology, ends: &[u16]) -> bool
    ensures { IsTrue result ↔ ((e : ℕ) → In e ends.now → link_of net.now.links e ≡ []) }
{
    match ends {
        [] => true,
        [first, others @ ..] => !net.is_in_link(*first) && are_in_no_link(net, others),
    }
}
