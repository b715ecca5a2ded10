//! What the lines before all events declare, for a network that begins.
ghost use Rattle.std.specs.Prelude.{◌≡◌, ◌/◌, ◌≤◌, IfOk};
ghost use Rattle.script_grammar.specs.Draft.{period_of};
ghost use Rattle.script_rules.specs.Said.{draft_of};

use rsvp_base::{EndName, NoMemory};
use script_rules::ScriptState;
use std::alloc::Global;

/// A quarter of the period, in milliseconds.
pub fn quarter(state: &ScriptState) -> u32
    ensures quarter { result ≡ period_of (draft_of state.now) / 4 }
    ensures long { 1 ≤ result }
    ensures short { result ≤ 15000 }
{
    state.refresh_period() / 4
}

/// These names once more.
pub fn copies(alloc: Global, names: &[EndName]) -> Result<Vec<EndName>, NoMemory>
    ensures { IfOk result (λ copies. copies.items ≡ names.now) }
{
    let mut copies = Vec::new(alloc);
    for name in names {
        copies.push(name.copy())?;
    }
    Ok(copies)
}
