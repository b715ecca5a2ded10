//! The run of a script.
ghost use Rattle.std.specs.Prelude.{◌≡◌, ◌≢◌, ◌≤◌, List, ℕ, None, Some, length};
ghost use Rattle.byte_streams.specs.Faults.{Rose};
ghost use Rattle.byte_streams.specs.Reading.{most_bytes};
ghost use Rattle.script_grammar.specs.Draft.{nothing, plan_of};
ghost use Rattle.script_run.specs.Advised.{IsAdvised};
ghost use Rattle.script_run.specs.Endings.{ComesTo, IsOrNoMemory, IsRun};
ghost use Rattle.script_run.specs.declared.ending.Ending.{Ending as AnEnding};
ghost use Rattle.network_replay.specs.Sights.{Shows};
ghost use Rattle.script_run.specs.Shown.{script_sights};
ghost use Rattle.script_run.specs.Standing.{IsNetworkOf};

use crate::checks::Checks;
use crate::ending::Ending;
use crate::opens::Opens;
use crate::running::run_lines;
use crate::script_player::ScriptPlayer;
use byte_streams::{Sink, Source};
use network_replay::{Watch, World};
use std::alloc::Global;

/// Reads a script of the source, checks and runs it line by line, and writes each event's text to the sink when it has run. Where
/// it is done and the script has an event, `last` holds the network in which the run ended; else it stays empty. `watch` sees all that
/// happens. `advice` becomes the text that tells what is wrong with the bad line, or by which line the run is crowded; else it is empty.
///
/// How it ends is said at `run_lines`.
pub fn run_script<C: Checks + Drop, R: Opens, S: Source, K: Sink, W: Watch>(
    alloc: Global,
    checker: C,
    source: &mut S,
    sink: &mut K,
    watch: &mut W,
    last: &mut Option<World<R>>,
    advice: &mut Vec<u8>,
) -> Ending
    requires first { C.lines checker ≡ nothing }
    requires empty { last.old ≡ None }
    ensures run { IsRun (λ d. IsNetworkOf R.seen last.new (plan_of d)) result (S.left source.old) (S.left source.new) (K.holds sink.old) (K.holds sink.new) }
    // Where it is done, all that there is to be seen of its lines was shown, in order, and nothing else.
    ensures told { IsRun (λ d. Shows W.saw watch.old watch.new (script_sights (plan_of d))) result
        (S.left source.old) (S.left source.new) (K.holds sink.old) (K.holds sink.new) }
    ensures empty { result ≢ Ending.Done → last.new ≡ None }
    ensures read_fault { result ≡ Ending.ReadFault → Rose (S.faults source.old) (S.faults source.new) }
    ensures write_fault { result ≡ Ending.WriteFault → Rose (K.faults sink.old) (K.faults sink.new) }
    // No fault of the source or of the sink is answered as anything else.
    ensures no_read_fault { result ≢ Ending.ReadFault → S.faults source.new ≡ S.faults source.old }
    ensures no_write_fault { result ≢ Ending.WriteFault → K.faults sink.new ≡ K.faults sink.old }
    ensures advised { (bytes : List ℕ) → S.left source.old ≡ Some bytes → IsAdvised result bytes advice.new.items }
    ensures complete { (bytes text : List ℕ) (wanted : AnEnding) → S.left source.old ≡ Some bytes → length bytes ≤ most_bytes → ComesTo wanted bytes text
        → (Rose (S.faults source.old) (S.faults source.new) → ⊥) → (Rose (K.faults sink.old) (K.faults sink.new) → ⊥) → IsOrNoMemory wanted result }
{
    let mut player: ScriptPlayer<C, R> = ScriptPlayer::new(alloc, checker);
    match run_lines(alloc, &mut player, source, sink, watch, advice) {
        Ending::Done => {
            leave(last, player.into_world());
            Ending::Done
        }
        other => other,
    }
}

// Leaves the network in which a run ended. Here alone the one before it is dropped.
fn leave<R: Opens>(last: &mut Option<World<R>>, world: Option<World<R>>)
    ensures { last.new ≡ world }
{
    *last = world;
}
