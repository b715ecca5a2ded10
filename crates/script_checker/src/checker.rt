//! What checks the lines of a script.
ghost use Rattle.std.specs.Prelude.{◌≡◌, IfOk};
ghost use Rattle.script_grammar.specs.Draft.{nothing};
ghost use Rattle.script_checker.specs.Checked.{draft_of};

use rsvp_base::NoMemory;
use script_rules::ScriptState;
use std::alloc::Global;

/// The lines so far.
#[derive(Drop)]
pub struct Checker {
    pub(crate) state: ScriptState,
}

impl Checker {
    /// No lines. `NoMemory`: there was no room for what is kept of them.
    pub fn open(alloc: Global) -> Result<Checker, NoMemory>
        ensures { IfOk result (λ c. draft_of c ≡ nothing) }
    {
        Ok(Checker {
            state: ScriptState::open(alloc)?,
        })
    }
}
