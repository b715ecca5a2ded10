//! Laws of runs that go line by line.
ghost use Rattle.script_run.specs.Laws.{ABadLineIsFirst, AScriptIsRun, FreeLinesAskForNoMemory, OneEnding, OnlyScriptsAreDone};

/// Over the same bytes, runs that end neither by a fault of a device nor out of memory come to one ending and one text.
#[tactic(auto, using(crate::proofs::Coming::one_ending))]
pub fn one_ending()
    ensures { OneEnding }
{}

/// The run of a script that is never crowded comes to its end, and writes the text of its plan.
#[tactic(auto, using(crate::proofs::Spoken::a_script_is_run))]
pub fn a_script_is_run()
    ensures { AScriptIsRun }
{}

/// Only the run of a script that is never crowded comes to its end.
#[tactic(auto, using(crate::proofs::Spoken::only_scripts_are_done))]
pub fn only_scripts_are_done()
    ensures { OnlyScriptsAreDone }
{}

/// The line by which a run ends as bad is the first bad line of its bytes.
#[tactic(auto, using(crate::proofs::Spoken::a_bad_line_is_first))]
pub fn a_bad_line_is_first()
    ensures { ABadLineIsFirst }
{}

/// A line of `wait`, `pass`, `rounds`, `deliver`, `lose`, `copy` or `clear` asks for no memory behind the first event, while the trace
/// is off.
pub fn free_lines_ask_for_no_memory()
    ensures { FreeLinesAskForNoMemory }
{}
