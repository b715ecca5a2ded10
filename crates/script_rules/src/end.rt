//! The rules of `end` and `latency`.
ghost use Rattle.std.specs.Prelude.{◌≡◌, ◌==◌, ◌↔◌, ◌++◌, ◌∷◌, [], Err, IfErr, IfSome, IsSome, None, OnOk};
ghost use Rattle.std.specs.List.{list_any};
ghost use Rattle.script_words.specs.Addresses.{addr_value};
ghost use Rattle.tree_routing.specs.Answers.{TakesEnd, with_end};
ghost use Rattle.script_rules.specs.Said.{draft_of};
ghost use Rattle.script_rules.specs.Refusals.{IsUntouched, OnlyNoMemory, Refuses};
ghost use Rattle.script_rules.specs.Asking.{AsksMemory};
ghost use Rattle.script_grammar.specs.Adds.{Adds};
ghost use Rattle.script_grammar.specs.Draft.{place_of};
ghost use Rattle.script_grammar.specs.Rules.{Keeps, KeepsAll, OnlyDeclares};
ghost use Rattle.script_grammar.specs.Values.{IsEndInRange};
ghost use Rattle.script_grammar.specs.declared.line.ScriptLine.TheVariants as kind;

use crate::parts::only_declares;
use crate::state::ScriptState;
use rsvp_base::{EndName, Iface};
use script_grammar::{EndLine, Fault, LatencyLine, Stop};
use script_words::is_host;
use tree_routing::End;

/// Adds an end.
pub fn add_end(state: &mut ScriptState, line: EndLine) -> Result<(), Stop>
    ensures ok { OnOk result (KeepsAll (Keeps (draft_of state.old) (kind.End line)) × Adds (draft_of state.old) (kind.End line) (draft_of state.new)) }
    ensures refused { IfErr result (Refuses (draft_of state.old) (kind.End line)) }
    ensures asked { result ≡ Err Stop.NoMemory → AsksMemory (draft_of state.old) (kind.End line) }
    ensures same { IfErr result (IsUntouched (draft_of state.old) (draft_of state.new)) }
{
    if !only_declares(state) {
        return Err(Stop::Bad(Fault::Late));
    }
    let Some(iface) = iface_of(&line) else {
        return Err(Stop::Bad(Fault::Range));
    };
    let Some(node) = state.nodes.find(line.node.bytes()) else {
        return Err(Stop::Bad(Fault::Name));
    };
    if state.names.find(line.name.bytes()).is_some() {
        return Err(Stop::Bad(Fault::Twice));
    }
    if state.topology.owner(iface.addr).is_some() {
        return Err(Stop::Bad(Fault::Twice));
    }
    let node = node as u16;
    if !state.topology.has_room_for_end(node) {
        return Err(Stop::Bad(Fault::Limit));
    }
    declare(state, line.name, End { node, iface })
}

// The interface of an end, where all its numbers are in range.
fn iface_of(line: &EndLine) -> Option<Iface>
    ensures some { IsSome result ↔ IsEndInRange line.now }
    ensures value { IfSome result (λ i. i ≡ record { addr = addr_value line.now.addr; capacity = line.now.capacity; mtu = line.now.mtu; latency = 0 }) }
{
    let addr = line.addr.addr()?;
    if !is_host(addr) || line.capacity >= 1 << 46 || line.mtu == 0 || line.mtu > 65_535 {
        return None;
    }
    Some(Iface {
        addr,
        capacity: line.capacity as u64,
        mtu: line.mtu as u32,
        latency: 0,
    })
}

// Keeps an end of a new name. Where memory runs out before the end is there, its name is forgotten.
fn declare(state: &mut ScriptState, name: EndName, end: End) -> Result<(), Stop>
    requires new { place_of state.old.names name ≡ None }
    requires takes { TakesEnd state.old.topology end }
    requires early { OnlyDeclares (draft_of state.old) }
    ensures ok { OnOk result (draft_of state.new ≡ record (draft_of state.old) { names = state.old.names ++ name ∷ []; net = with_end state.old.topology end }) }
    ensures refused { IfErr result OnlyNoMemory }
{
    let count = state.names.len();
    state.end_names.reserve(1)?;
    state.names.add(state.alloc, name.bytes())?;
    match state.topology.add_end(end) {
        Ok(_number) => {
            let _ = state.end_names.push(name);
            Ok(())
        }
        Err(_) => {
            state.names.keep_first(count);
            Err(Stop::NoMemory)
        }
    }
}

/// Says the latency of an end.
pub fn add_latency(state: &mut ScriptState, line: LatencyLine) -> Result<(), Stop>
    ensures ok { OnOk result (KeepsAll (Keeps (draft_of state.old) (kind.Latency line)) × Adds (draft_of state.old) (kind.Latency line) (draft_of state.new)) }
    ensures refused { IfErr result (Refuses (draft_of state.old) (kind.Latency line)) }
    ensures asked { result ≡ Err Stop.NoMemory → AsksMemory (draft_of state.old) (kind.Latency line) }
    ensures same { IfErr result (IsUntouched (draft_of state.old) (draft_of state.new)) }
{
    if !only_declares(state) {
        return Err(Stop::Bad(Fault::Late));
    }
    if line.latency > u128::from(u32::MAX) {
        return Err(Stop::Bad(Fault::Range));
    }
    let Some(end) = state.names.find(line.end.bytes()) else {
        return Err(Stop::Bad(Fault::Name));
    };
    let end = end as u16;
    if is_timed(state.timed.as_slice(), end) {
        return Err(Stop::Bad(Fault::Twice));
    }
    state.timed.push(end)?;
    state.topology.set_latency(end, line.latency as u32);
    Ok(())
}

// Whether a line says the latency of an end.
fn is_timed(timed: &[u16], end: u16) -> bool
    ensures { result ≡ list_any (λ e. e == end) timed.now }
{
    timed.iter().any(|one| *one == end)
}
