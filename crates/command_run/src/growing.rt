//! Growing a network.
ghost use Rattle.std.specs.Prelude.{◌≡◌, ◌≢◌, None};
ghost use Rattle.byte_streams.specs.Faults.{Rose};
ghost use Rattle.grown_network.specs.Grown.{grown_plan};
ghost use Rattle.network_replay.specs.Sights.{Shows, plan_sights};
ghost use Rattle.command_run.specs.Commands.{Grown};
ghost use Rattle.command_run.specs.Ran.{device};

use crate::replaying::status_of;
use crate::status::Status;
use byte_streams::Sink;
use grown_player::run_grown;
use network_replay::{Watch, World};
use script_run::Opens;
use std::alloc::Global;

/// Grows the network of a seed, runs it and writes the summary of the run to the sink. Where it is done, the run reported what is
/// demanded, the last line of the summary is `equal yes`, and `last` holds the network in which the run ended; else `last` stays
/// empty. `watch` sees all that happens.
///
/// The run of no seed is crowded, so that it is done, or the sink fails (`WriteFault`), or memory runs out: `NoMemory` may come at any
/// time before the first byte is written.
pub fn grow<R: Opens, K: Sink, W: Watch>(
    alloc: Global,
    seed: u64,
    sink: &mut K,
    watch: &mut W,
    last: &mut Option<World<R>>,
) -> Status
    requires { last.old ≡ None }
    ensures grown { Grown R.seen last.new seed result (device K.holds K.faults sink.old sink.new) }
    ensures told { result ≡ Status.Done → Shows W.saw watch.old watch.new (plan_sights (grown_plan seed)) }
    ensures usage { result ≢ Status.Usage }
    ensures crowded { result ≢ Status.Crowded }
    ensures empty { result ≢ Status.Done → last.new ≡ None }
    ensures read_fault { result ≢ Status.ReadFault }
    ensures write_fault { result ≡ Status.WriteFault → Rose (K.faults sink.old) (K.faults sink.new) }
    ensures no_write_fault { result ≢ Status.WriteFault → K.faults sink.new ≡ K.faults sink.old }
{
    let ending = run_grown::<R, K, W>(alloc, seed, sink, watch, last);
    status_of(ending)
}
