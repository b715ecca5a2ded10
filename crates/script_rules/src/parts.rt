//! Which part of a script the lines are in.
ghost use Rattle.std.specs.Prelude.{◌≡◌, ◌↔◌, [], IsTrue};
ghost use Rattle.script_grammar.specs.Rules.{OnlyDeclares};
ghost use Rattle.script_rules.specs.Said.{draft_of};

use crate::state::ScriptState;

/// Whether no left-over fact and no event came yet.
pub fn only_declares(state: &ScriptState) -> bool
    ensures { IsTrue result ↔ OnlyDeclares (draft_of state.now) }
{
    state.left.is_empty() && is_before_events(state)
}

/// Whether no event came yet.
pub fn is_before_events(state: &ScriptState) -> bool
    ensures { IsTrue result ↔ ((draft_of state.now).events ≡ []) }
{
    !state.begun
}
