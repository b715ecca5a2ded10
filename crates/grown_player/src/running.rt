//! The run of a grown network.
ghost use Rattle.std.specs.Prelude.{◌≡◌, ◌≢◌, true, false, None, IfErr, IfOk};
ghost use Rattle.byte_streams.specs.Faults.{Rose};
ghost use Rattle.network_model.specs.Runs.{is_crowded_run};
ghost use Rattle.script_run.specs.Endings.{IsOrNoMemory};
ghost use Rattle.script_run.specs.declared.ending.Ending.{Ending as AnEnding};
ghost use Rattle.network_replay.specs.Sights.{Shows, plan_sights};
ghost use Rattle.network_replay.specs.declared.world_err.WorldErr.TheVariants as refusal;
ghost use Rattle.script_run.specs.Standing.{IsNetworkOf, StandsBehind};
ghost use Rattle.grown_network.specs.Grown.{grown_plan};
ghost use Rattle.grown_network.specs.Summaries.{summary};
ghost use Rattle.grown_player.specs.Endings.{GrowsTo, IsGrownRun};

use crate::growing::{expect, open};
use crate::playing::play_plan;
use crate::summing::sum_up;
use byte_streams::{Sink, write_all};
use grown_network::{Grown, grow};
use network_replay::{Watch, World, WorldErr};
use script_run::{Ending, Opens};
use std::alloc::Global;

/// Grows the network of a seed, runs the events of its plan on routers, and writes the summary of the run to the sink. Where it is
/// done, `last` holds the network in which the run ended; else it stays empty. `watch` sees all that happens.
///
/// `Crowded` comes before `WriteFault`, and nothing is written then. `NoMemory` may come at any time before the first byte is
/// written. It does not end otherwise.
pub fn run_grown<R: Opens, K: Sink, W: Watch>(
    alloc: Global,
    seed: u64,
    sink: &mut K,
    watch: &mut W,
    last: &mut Option<World<R>>,
) -> Ending
    requires { last.old ≡ None }
    ensures run { IsGrownRun (λ p. IsNetworkOf R.seen last.new p) result seed (K.holds sink.old) (K.holds sink.new) }
    // Where it is done, all that there is to be seen of the run was shown, in order, and nothing else.
    ensures told { result ≡ Ending.Done → Shows W.saw watch.old watch.new (plan_sights (grown_plan seed)) }
    ensures empty { result ≢ Ending.Done → last.new ≡ None }
    ensures write_fault { result ≡ Ending.WriteFault → Rose (K.faults sink.old) (K.faults sink.new) }
    ensures no_write_fault { result ≢ Ending.WriteFault → K.faults sink.new ≡ K.faults sink.old }
    // Nothing else ends it where the sink does not fail.
    ensures complete { (wanted : AnEnding) → GrowsTo wanted seed → (wanted ≡ Ending.Done → Rose (K.faults sink.old) (K.faults sink.new) → ⊥) → IsOrNoMemory wanted result }
{
    match run_plan::<R, W>(alloc, seed, watch) {
        Ok((world, text)) => match write_all(sink, text.as_slice()) {
            Ok(()) => {
                *last = Some(world);
                Ending::Done
            }
            Err(_) => Ending::WriteFault,
        },
        Err(WorldErr::Crowded) => Ending::Crowded,
        Err(WorldErr::NoMemory) => Ending::NoMemory,
    }
}

// The network in which the run of a seed ended, and its summary. `Crowded`: exactly where the run is crowded. `NoMemory`: memory
// ran out.
fn run_plan<R: Opens, W: Watch>(
    alloc: Global,
    seed: u64,
    watch: &mut W,
) -> Result<(World<R>, Vec<u8>), WorldErr>
    ensures roomy { IfOk result (λ r. is_crowded_run (grown_plan seed) ≡ false) }
    ensures stands { IfOk result (λ r. StandsBehind R.seen r.0 (grown_plan seed)) }
    ensures text { IfOk result (λ r. r.1.items ≡ summary seed) }
    ensures crowded { IfErr result (λ e. e ≡ refusal.Crowded → is_crowded_run (grown_plan seed) ≡ true) }
    ensures told { IfOk result (λ r. Shows W.saw watch.old watch.new (plan_sights (grown_plan seed))) }
{
    let Ok(grown) = grow(alloc, seed) else {
        return Err(WorldErr::NoMemory);
    };
    let Ok(expected) = expect(alloc, seed, &grown) else {
        return Err(WorldErr::NoMemory);
    };
    let Grown {
        routing,
        names,
        senders,
        wants,
        rounds,
    } = grown;
    let Ok(mut world) = open::<R>(alloc, seed, routing, names) else {
        return Err(WorldErr::NoMemory);
    };
    let mut report = Vec::new(alloc);
    play_plan(
        &mut world,
        senders.as_slice(),
        wants.as_slice(),
        rounds,
        watch,
        &mut report,
    )?;
    let Ok(text) = sum_up(alloc, seed, &world, &expected, report.as_slice()) else {
        return Err(WorldErr::NoMemory);
    };
    Ok((world, text))
}
