//! The rules of `hop`.
ghost use Rattle.std.specs.Prelude.{◌≡◌, ◌<◌, ◌↔◌, Err, IfErr, IfSome, IsSome, OnOk, length};
ghost use Rattle.script_words.specs.Addresses.{IsAddr, IsGroup, addr_value};
ghost use Rattle.tree_model.specs.Ranks.{IsLoopFreeIn};
ghost use Rattle.tree_routing.specs.Answers.{Fits, with_hop};
ghost use Rattle.script_rules.specs.Said.{draft_of};
ghost use Rattle.script_rules.specs.HopRefusals.{IsHopRefused, IsLoopNamed};
ghost use Rattle.script_rules.specs.Refusals.{IsUntouched, Refuses};
ghost use Rattle.script_rules.specs.Asking.{AsksMemory};
ghost use Rattle.script_grammar.specs.Adds.{Adds, with_tree_hop};
ghost use Rattle.script_grammar.specs.Rules.{IsEnd, Keeps, KeepsAll, OnlyDeclares};
ghost use Rattle.script_grammar.specs.Values.{hop_value};
ghost use Rattle.script_grammar.specs.declared.line.ScriptLine.TheVariants as kind;

use crate::parts::only_declares;
use crate::state::ScriptState;
use rsvp_base::Addr;
use script_grammar::{Fault, HopEnds, HopLine, Stop};
use script_words::{DottedQuad, is_group};
use tree_routing::{HopErr, LinkHop, TreeHop};

/// Adds a hop. Memory is taken only where its tree can grow by it.
pub fn add_hop(state: &mut ScriptState, line: HopLine) -> Result<(), Stop>
    ensures ok { OnOk result (KeepsAll (Keeps (draft_of state.old) (kind.Hop line)) × Adds (draft_of state.old) (kind.Hop line) (draft_of state.new)) }
    ensures refused { IfErr result (Refuses (draft_of state.old) (kind.Hop line)) }
    ensures asked { result ≡ Err Stop.NoMemory → AsksMemory (draft_of state.old) (kind.Hop line) }
    ensures same { IfErr result (IsUntouched (draft_of state.old) (draft_of state.new)) }
{
    if !only_declares(state) {
        return Err(Stop::Bad(Fault::Late));
    }
    let Some((group, source)) = tree_of(line.group, line.source) else {
        return Err(Stop::Bad(Fault::Range));
    };
    let Some(hop) = hop_of(state, &line.ends) else {
        return Err(Stop::Bad(Fault::Name));
    };
    if state.topology.owner(source).is_none() {
        return Err(Stop::Bad(Fault::Name));
    }
    if !state.topology.has_room_for_hop() {
        return Err(Stop::Bad(Fault::Limit));
    }
    grow(state, TreeHop { group, source, hop })
}

/// The group and source of a tree, where they are in range.
pub fn tree_of(group: DottedQuad, source: DottedQuad) -> Option<(Addr, Addr)>
    ensures some { IsSome result ↔ (IsAddr group × IsGroup (addr_value group) × IsAddr source) }
    ensures value { IfSome result (λ t. (t.0 ≡ addr_value group) × (t.1 ≡ addr_value source)) }
{
    let group = group.addr()?;
    let source = source.addr()?;
    if !is_group(group) {
        return None;
    }
    Some((group, source))
}

/// The hop between two ends, where they were declared.
pub fn hop_of(state: &ScriptState, ends: &HopEnds) -> Option<LinkHop>
    ensures some { IsSome result ↔ (IsEnd (draft_of state.now) ends.now.from × IsEnd (draft_of state.now) ends.now.to) }
    ensures value { IfSome result (λ h. h ≡ hop_value (draft_of state.now) ends.now) }
{
    let from = state.names.find(ends.from.bytes())?;
    let to = state.names.find(ends.to.bytes())?;
    Some(LinkHop {
        from: from as u16,
        to: to as u16,
    })
}

// Grows the tree of a hop by it.
fn grow(state: &mut ScriptState, hop: TreeHop) -> Result<(), Stop>
    requires room { length state.old.topology.hops < 8192 }
    requires early { OnlyDeclares (draft_of state.old) }
    ensures ok { OnOk result (Fits state.old.topology hop × IsLoopFreeIn (with_hop state.old.topology hop) hop.group × (draft_of state.new ≡ with_tree_hop (draft_of state.old) hop)) }
    ensures refused { IfErr result (IsHopRefused (draft_of state.old) hop) }
    ensures asked { result ≡ Err Stop.NoMemory → Fits state.old.topology hop }
    ensures same { IfErr result (IsUntouched (draft_of state.old) (draft_of state.new)) }
{
    let TreeHop { group, source, hop } = hop;
    match state.topology.add_hop(group, source, hop.from, hop.to) {
        Ok(()) => Ok(()),
        Err(HopErr::NotTree) => Err(Stop::Bad(Fault::NotTree)),
        Err(HopErr::Loop { group, from, to }) => {
            Err(Stop::Bad(closed(state, group, LinkHop { from, to })))
        }
        Err(HopErr::NoMemory) => Err(Stop::NoMemory),
    }
}

/// The fault of a loop on which this hop is the least, by the names of its ends.
pub fn closed(state: &ScriptState, group: Addr, hop: LinkHop) -> Fault
    requires from { hop.from < length state.now.topology.ends }
    requires to { hop.to < length state.now.topology.ends }
    ensures { IsLoopNamed (draft_of state.now) group hop result }
{
    let names = state.end_names.as_slice();
    Fault::Loop {
        group,
        from: names[hop.from as usize].copy(),
        to: names[hop.to as usize].copy(),
    }
}
