//! Scripts whose first bad line and its fault are known.
ghost use Rattle.script_grammar.specs.Rows.{FaultsAreFound};

/// An unknown first word, a declaration behind an event, a period that 4 does not divide, a node that was not declared, a
/// name a second time, and a hop between ends that share no link.
pub fn faults_are_found()
    ensures { FaultsAreFound }
{}
