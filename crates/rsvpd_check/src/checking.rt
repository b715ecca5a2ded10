//! The checking of a script.
ghost use Rattle.std.specs.Prelude.{◌≡◌, ◌≢◌};
ghost use Rattle.byte_streams.specs.Faults.{Rose};
ghost use Rattle.command_run.specs.Statuses.{status_of};
ghost use Rattle.script_demand.specs.Findings.{IsFinding};
ghost use Rattle.script_run.specs.declared.ending.Ending.{Ending as AnEnding};

use byte_streams::{Sink, Source};
use command_run::{Status, status_of};
use script_checker::Checker;
use script_demand::write_findings;
use std::alloc::Global;

/// How a check ended.
#[derive(Drop)]
pub(crate) struct Outcome {
    pub(crate) status: Status,
    /// Whether anything was said but that refreshes crowd no later round.
    pub(crate) said: bool,
}

/// Checks a script: see `write_findings`. `NoMemory` may also come before it: there was no room for a checker of lines, and nothing is
/// read or written.
pub(crate) fn check<S: Source, K: Sink>(
    alloc: Global,
    source: &mut S,
    sink: &mut K,
    advice: &mut Vec<u8>,
) -> Outcome
    ensures found { (e : AnEnding) × (result.status ≡ status_of e) × IsFinding result.said e (S.left source.old) (S.left source.new) (K.holds sink.old) (K.holds sink.new) }
    ensures read_fault { result.status ≡ Status.ReadFault → Rose (S.faults source.old) (S.faults source.new) }
    // No fault of the source or of the sink is answered as anything else.
    ensures no_read_fault { result.status ≢ Status.ReadFault → S.faults source.new ≡ S.faults source.old }
    ensures write_fault { result.status ≡ Status.WriteFault → Rose (K.faults sink.old) (K.faults sink.new) }
    ensures no_write_fault { result.status ≢ Status.WriteFault → K.faults sink.new ≡ K.faults sink.old }
{
    advice.clear();
    match Checker::open(alloc) {
        Ok(checker) => {
            let checked = write_findings(alloc, checker, source, sink, advice);
            Outcome {
                status: status_of(checked.ending),
                said: checked.said,
            }
        }
        Err(_) => Outcome {
            status: Status::NoMemory,
            said: false,
        },
    }
}
