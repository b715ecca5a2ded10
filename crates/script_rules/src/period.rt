//! The rules of `period` and `seed`. They take no memory, so that `NoMemory` is never their answer.
ghost use Rattle.std.specs.Prelude.{◌≡◌, ◌≢◌, Err, IfErr, OnOk};
ghost use Rattle.script_rules.specs.Said.{draft_of};
ghost use Rattle.script_rules.specs.Refusals.{IsUntouched, Refuses};
ghost use Rattle.script_grammar.specs.Adds.{Adds};
ghost use Rattle.script_grammar.specs.Rules.{Keeps, KeepsAll};
ghost use Rattle.script_grammar.specs.declared.line.ScriptLine.TheVariants as kind;

use crate::parts::only_declares;
use crate::state::ScriptState;
use script_grammar::{Fault, Stop};

/// Sets the period, in milliseconds.
pub fn add_period(state: &mut ScriptState, ms: u128) -> Result<(), Stop>
    ensures ok { OnOk result (KeepsAll (Keeps (draft_of state.old) (kind.Period ms)) × Adds (draft_of state.old) (kind.Period ms) (draft_of state.new)) }
    ensures refused { IfErr result (Refuses (draft_of state.old) (kind.Period ms)) }
    ensures asked { result ≢ Err Stop.NoMemory }
    ensures same { IfErr result (IsUntouched (draft_of state.old) (draft_of state.new)) }
{
    if state.nodes.len() > 0 || !only_declares(state) {
        return Err(Stop::Bad(Fault::Late));
    }
    if ms < 1000 || ms > 60_000 || ms % 4 != 0 {
        return Err(Stop::Bad(Fault::Range));
    }
    if state.period.is_some() {
        return Err(Stop::Bad(Fault::Twice));
    }
    state.period = Some(ms as u32);
    Ok(())
}

/// Sets where the random words start.
pub fn add_seed(state: &mut ScriptState, seed: u128) -> Result<(), Stop>
    ensures ok { OnOk result (KeepsAll (Keeps (draft_of state.old) (kind.Seed seed)) × Adds (draft_of state.old) (kind.Seed seed) (draft_of state.new)) }
    ensures refused { IfErr result (Refuses (draft_of state.old) (kind.Seed seed)) }
    ensures asked { result ≢ Err Stop.NoMemory }
    ensures same { IfErr result (IsUntouched (draft_of state.old) (draft_of state.new)) }
{
    if state.nodes.len() > 0 || !only_declares(state) {
        return Err(Stop::Bad(Fault::Late));
    }
    if seed >= 1 << 64 {
        return Err(Stop::Bad(Fault::Range));
    }
    if state.seed.is_some() {
        return Err(Stop::Bad(Fault::Twice));
    }
    state.seed = Some(seed as u64);
    Ok(())
}
