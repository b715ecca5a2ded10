//! The top call.
ghost use Rattle.std.specs.Prelude.{◌≡◌, ◌≢◌, None, Some, Err, map, string_bytes, IfOk};
ghost use Rattle.byte_streams.specs.Faults.{Rose};
ghost use Rattle.script_grammar.specs.Draft.{nothing};
ghost use Rattle.command_run.specs.Commands.{Does};
ghost use Rattle.command_run.specs.Ran.{device, ran};
ghost use Rattle.command_run.specs.Shown.{ShowsTask};
ghost use Rattle.command_run.specs.Tasks.{task_of};

use crate::demanding::demand;
use crate::ended::Ended;
use crate::growing::grow;
use crate::order::{NoOrder, Order};
use crate::policing::police_packets;
use crate::reading::read_order;
use crate::replaying::replay;
use crate::serving::serve_router;
use crate::showing::show_messages;
use crate::status::Status;
use crate::task::Task;
use byte_streams::{Sink, Source};
use network_replay::Watch;
use node_stream::Serves;
use script_demand::Asks;
use script_run::Opens;
use std::alloc::Global;

/// Runs the task of these words: `replay` reads a script from the source, runs it line by line on a network of routers, and writes
/// to the sink what its events write; `demand` reads a script, and writes what each end of its network owes behind the last line and
/// whether that fits; `show` reads messages as lines of hexadecimal digits and writes a line of words for each; `grow` reads
/// nothing, grows the network of a seed, runs it and writes a summary of the run, whose last line is `equal yes`; `node` reads frames,
/// of which the first opens a router, and writes the frames with which the router answers each; `police` reads a
/// flow and its packets, and writes for each whether it passes. Where a script with
/// an event was replayed to its end, and where a network was grown and run to its end, `ended` holds the network in which the run
/// ended; else it holds none still. Its advice becomes the text that says what is wrong with the bad line, or by which line a replay is
/// crowded; else it is empty. `watch` sees all that happens in a replay or a growing.
///
/// `Usage` comes first: the words are no command, and nothing is read or written. How a replay ends is said at `replay`, how the
/// demand of a script ends at `demand`, how showing ends at `show_messages`, how growing ends at `grow`, how the service of a
/// router ends at `serve_router`, and how policing ends at `police_packets`.
pub fn run_command<C: Asks + Drop, R: Opens + Serves, S: Source, K: Sink, W: Watch>(
    alloc: Global,
    words: &Vec<String>,
    checker: C,
    source: &mut S,
    sink: &mut K,
    watch: &mut W,
    ended: &mut Ended<R>,
) -> Status
    requires first { C.lines checker ≡ nothing }
    requires empty { ended.old.last ≡ None }
    // What the words order, a row a task.
    ensures does { Does R.seen (task_of (map string_bytes words.now.items))
        (ran result (device S.left S.faults source.old source.new) (device K.holds K.faults sink.old sink.new) ended.new.advice.items) ended.new.last }
    // Where it is done, all that there is to be seen of what was run was shown, in order, and nothing else.
    ensures told { result ≡ Status.Done → ShowsTask W.saw watch.old watch.new (task_of (map string_bytes words.now.items)) (S.left source.old) }
    // Whatever they order.
    ensures usage { result ≡ Status.Usage → task_of (map string_bytes words.now.items) ≡ None }
    ensures read_fault { result ≡ Status.ReadFault → Rose (S.faults source.old) (S.faults source.new) }
    // No fault of the source or of the sink is answered as anything else.
    ensures no_read_fault { result ≢ Status.ReadFault → S.faults source.new ≡ S.faults source.old }
    ensures write_fault { result ≡ Status.WriteFault → Rose (K.faults sink.old) (K.faults sink.new) }
    ensures no_write_fault { result ≢ Status.WriteFault → K.faults sink.new ≡ K.faults sink.old }
    ensures empty { result ≢ Status.Done → ended.new.last ≡ None }
{
    ended.advice.clear();
    match task_of(alloc, words) {
        Ok(Task::Replay) => { replay::<C, R, S, K, W>(alloc, checker, source, sink, watch, ended) }
        Ok(Task::Demand) => demand(alloc, checker, source, sink, &mut ended.advice),
        Ok(Task::Show) => show_messages(alloc, source, sink, &mut ended.advice),
        Ok(Task::Grow { seed }) => grow(alloc, seed, sink, watch, &mut ended.last),
        Ok(Task::Node) => serve_router::<R, S, K>(alloc, source, sink, &mut ended.advice),
        Ok(Task::Police) => police_packets(alloc, source, sink, &mut ended.advice),
        Err(NoOrder::Usage) => Status::Usage,
        Err(NoOrder::NoMemory) => Status::NoMemory,
    }
}

// The task of the words. `Usage`: they are no command.
fn task_of(alloc: Global, words: &Vec<String>) -> Result<Task, NoOrder>
    ensures task { IfOk result (λ t. task_of (map string_bytes words.now.items) ≡ Some t) }
    ensures none { result ≡ Err NoOrder.Usage → task_of (map string_bytes words.now.items) ≡ None }
{
    match read_order(alloc, words.as_slice()) {
        Ok(Order::Replay) => Ok(Task::Replay),
        Ok(Order::Demand) => Ok(Task::Demand),
        Ok(Order::Show) => Ok(Task::Show),
        Ok(Order::Grow { seed }) => Ok(Task::Grow { seed }),
        Ok(Order::Node) => Ok(Task::Node),
        Ok(Order::Police) => Ok(Task::Police),
        Err(error) => Err(error),
    }
}
