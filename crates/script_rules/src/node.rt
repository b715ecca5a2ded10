//! The rules of `node`.
ghost use Rattle.std.specs.Prelude.{◌≡◌, Err, IfErr, OnOk};
ghost use Rattle.script_rules.specs.Said.{draft_of};
ghost use Rattle.script_rules.specs.Refusals.{IsUntouched, Refuses};
ghost use Rattle.script_rules.specs.Asking.{AsksMemory};
ghost use Rattle.script_grammar.specs.Adds.{Adds};
ghost use Rattle.script_grammar.specs.Rules.{Keeps, KeepsAll};
ghost use Rattle.script_grammar.specs.declared.line.ScriptLine.TheVariants as kind;

use crate::parts::only_declares;
use crate::state::ScriptState;
use rsvp_base::EndName;
use script_grammar::{Fault, Stop};

const MOST_NODES: usize = 256;

/// Adds a node.
pub fn add_node(state: &mut ScriptState, name: EndName) -> Result<(), Stop>
    ensures ok { OnOk result (KeepsAll (Keeps (draft_of state.old) (kind.Node name)) × Adds (draft_of state.old) (kind.Node name) (draft_of state.new)) }
    ensures refused { IfErr result (Refuses (draft_of state.old) (kind.Node name)) }
    ensures asked { result ≡ Err Stop.NoMemory → AsksMemory (draft_of state.old) (kind.Node name) }
    ensures same { IfErr result (IsUntouched (draft_of state.old) (draft_of state.new)) }
{
    if !only_declares(state) {
        return Err(Stop::Bad(Fault::Late));
    }
    if state.nodes.find(name.bytes()).is_some() {
        return Err(Stop::Bad(Fault::Twice));
    }
    if state.nodes.len() >= MOST_NODES {
        return Err(Stop::Bad(Fault::Limit));
    }
    state.left.add_node()?;
    state.nodes.add(state.alloc, name.bytes())?;
    state.topology.add_node()?;
    Ok(())
}
