//! Replaying a script.
ghost use Rattle.std.specs.Prelude.{◌≡◌, ◌≢◌, None, IfSome};
ghost use Rattle.script_grammar.specs.Draft.{nothing};
ghost use Rattle.byte_streams.specs.Faults.{Rose};
ghost use Rattle.command_run.specs.Commands.{Replayed};
ghost use Rattle.command_run.specs.Ran.{device, ran};
ghost use Rattle.command_run.specs.Shown.{ShowsScript};
ghost use Rattle.command_run.specs.Statuses.{status_of};

use crate::ended::Ended;
use crate::status::Status;
use byte_streams::{Sink, Source};
use network_replay::Watch;
use script_run::{Checks, Ending, Opens, run_script};
use std::alloc::Global;

/// The status of a run of a script that ended so.
pub fn status_of(ending: Ending) -> Status
    ensures { result ≡ status_of ending }
{
    match ending {
        Ending::Done => Status::Done,
        Ending::BadLine { line, why } => Status::BadLine { line, why },
        Ending::ReadFault => Status::ReadFault,
        Ending::WriteFault => Status::WriteFault,
        Ending::NoMemory => Status::NoMemory,
        Ending::Crowded => Status::Crowded,
        Ending::TooLong => Status::TooLong,
    }
}

/// Replays a script of the source: each line is checked and run, and its text written to the sink, before the next is read. Where
/// it is done and the script has an event, `ended` holds the network in which the run ended; else it holds none still. Its advice
/// becomes the text that says what is wrong with the bad line, or by which line the run is crowded; else it is empty. `watch` sees all
/// that happens.
///
/// At one line these come in this order: `ReadFault` or `TooLong` while it is read, then `BadLine`, then `Crowded`, then
/// `WriteFault`. `NoMemory`: memory ran out.
pub fn replay<C: Checks + Drop, R: Opens, S: Source, K: Sink, W: Watch>(
    alloc: Global,
    checker: C,
    source: &mut S,
    sink: &mut K,
    watch: &mut W,
    ended: &mut Ended<R>,
) -> Status
    requires first { C.lines checker ≡ nothing }
    requires empty { ended.old.last ≡ None }
    ensures replayed { Replayed R.seen ended.new.last
        (ran result (device S.left S.faults source.old source.new) (device K.holds K.faults sink.old sink.new) ended.new.advice.items) }
    // Over known input, where it is done: all that there is to be seen of its lines was shown, in order, and nothing else.
    ensures told { result ≡ Status.Done → IfSome (S.left source.old) (ShowsScript W.saw watch.old watch.new) }
    ensures usage { result ≢ Status.Usage }
    ensures empty { result ≢ Status.Done → ended.new.last ≡ None }
    ensures read_fault { result ≡ Status.ReadFault → Rose (S.faults source.old) (S.faults source.new) }
    ensures no_read_fault { result ≢ Status.ReadFault → S.faults source.new ≡ S.faults source.old }
    ensures write_fault { result ≡ Status.WriteFault → Rose (K.faults sink.old) (K.faults sink.new) }
    ensures no_write_fault { result ≢ Status.WriteFault → K.faults sink.new ≡ K.faults sink.old }
{
    let ending = run_script::<C, R, S, K, W>(
        alloc,
        checker,
        source,
        sink,
        watch,
        &mut ended.last,
        &mut ended.advice,
    );
    status_of(ending)
}
