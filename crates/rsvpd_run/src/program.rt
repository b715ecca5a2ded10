//! The program.
ghost use Rattle.std.specs.Prelude.{◌≡◌, ◌≢◌, None, map, string_bytes};
ghost use Rattle.byte_streams.specs.Faults.{Rose};
ghost use Rattle.command_run.specs.Commands.{Does};
ghost use Rattle.command_run.specs.Ran.{device, ran};
ghost use Rattle.command_run.specs.Shown.{ShowsTask};
ghost use Rattle.command_run.specs.Tasks.{task_of};
ghost use Rattle.live_router.specs.SeenNode.{seen_node};

use byte_streams::{Sink, Source};
use command_run::{Ended, Status, Watch, run_command};
use live_router::LiveRouter;
use script_checker::Checker;
use std::alloc::Global;

/// Runs the task of these words over live routers: see `run_command`. `NoMemory` may also come before it: there was no room for a
/// checker of scripts, and nothing is read or written.
pub fn run<S: Source, K: Sink, W: Watch>(
    alloc: Global,
    words: &Vec<String>,
    source: &mut S,
    sink: &mut K,
    watch: &mut W,
    ended: &mut Ended<LiveRouter>,
) -> Status
    requires empty { ended.old.last ≡ None }
    // What the words order, a row a task.
    ensures does { Does seen_node (task_of (map string_bytes words.now.items))
        (ran result (device S.left S.faults source.old source.new) (device K.holds K.faults sink.old sink.new) ended.new.advice.items) ended.new.last }
    // Where it is done, all that there is to be seen of what was run was shown, in order, and nothing else.
    ensures told { result ≡ Status.Done → ShowsTask W.saw watch.old watch.new (task_of (map string_bytes words.now.items)) (S.left source.old) }
    // Whatever they order.
    ensures usage { result ≡ Status.Usage → task_of (map string_bytes words.now.items) ≡ None }
    ensures read_fault { result ≡ Status.ReadFault → Rose (S.faults source.old) (S.faults source.new) }
    // No fault of the source or of the sink is answered as anything else.
    ensures no_read_fault { result ≢ Status.ReadFault → S.faults source.new ≡ S.faults source.old }
    ensures write_fault { result ≡ Status.WriteFault → Rose (K.faults sink.old) (K.faults sink.new) }
    ensures no_write_fault { result ≢ Status.WriteFault → K.faults sink.new ≡ K.faults sink.old }
    ensures empty { result ≢ Status.Done → ended.new.last ≡ None }
{
    ended.advice.clear();
    match Checker::open(alloc) {
        Ok(checker) => run_command::<Checker, LiveRouter, S, K, W>(
            alloc, words, checker, source, sink, watch, ended,
        ),
        Err(_) => Status::NoMemory,
    }
}
