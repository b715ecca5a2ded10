//! A script is run, and its events are written.
ghost use Rattle.std.specs.Prelude.{◌≡◌, ◌≢◌, ◌≤◌, ◌⊎◌, List, ℕ, None, Some, length};
ghost use Rattle.byte_streams.specs.Faults.{Rose};
ghost use Rattle.byte_streams.specs.Reading.{most_bytes};
ghost use Rattle.script_grammar.specs.Draft.{nothing, plan_of};
ghost use Rattle.script_run.specs.Advised.{IsAdvised};
ghost use Rattle.script_run.specs.Endings.{ComesTo, IsOrNoMemory, IsRun};
ghost use Rattle.script_run.specs.declared.ending.Ending.{Ending as AnEnding};
ghost use Rattle.script_run.specs.Standing.{IsNetworkOf};

use crate::nowhere::Nowhere;
use crate::recorder::Recorder;
use byte_streams::{Sink, Source};
use network_replay::{Both, Watch, World};
use script_run::{Checks, Ending, Opens, run_script};
use std::alloc::Global;

/// Runs a script of the source line by line, as `run_script` does, and writes the events of the run, but for that of its end, which
/// `close` of the recorder writes. The ending is `WriteFault` where an event could not be written, and may be `NoMemory` where there
/// was no room for one; else it is that of the run, which is said at `run_lines`. Where it is done and the script has an event, `last`
/// holds the network in which the run ended. `watch` sees what the recorder sees. `advice` becomes the text that tells what is wrong
/// with the bad line, or by which line the run is crowded; else it is empty.
pub fn write_events<C: Checks + Drop, R: Opens, S: Source, K: Sink + Drop, W: Watch>(
    alloc: Global,
    checker: C,
    source: &mut S,
    recorder: &mut Recorder<K>,
    watch: &mut W,
    last: &mut Option<World<R>>,
    advice: &mut Vec<u8>,
) -> Ending
    requires first { C.lines checker ≡ nothing }
    requires empty { last.old ≡ None }
    // What was read, and how it ended, is as for a replay.
    ensures run { result ≢ Ending.WriteFault → result ≢ Ending.NoMemory
        → IsRun (λ d. IsNetworkOf R.seen last.new (plan_of d)) result (S.left source.old) (S.left source.new) None None }
    ensures read_fault { result ≡ Ending.ReadFault → Rose (S.faults source.old) (S.faults source.new) }
    ensures advised { (bytes : List ℕ) → S.left source.old ≡ Some bytes → IsAdvised result bytes advice.new.items }
    // Nothing else ends it over known input and a source that does not fail.
    ensures complete { (bytes text : List ℕ) (wanted : AnEnding) → S.left source.old ≡ Some bytes → length bytes ≤ most_bytes → ComesTo wanted bytes text
        → (Rose (S.faults source.old) (S.faults source.new) → ⊥) → (result ≡ Ending.WriteFault) ⊎ IsOrNoMemory wanted result }
{
    let mut nowhere = Nowhere;
    let mut both: Both<&mut Recorder<K>, &mut W> = Both::new(recorder, watch);
    let ending = run_script(
        alloc,
        checker,
        source,
        &mut nowhere,
        &mut both,
        last,
        advice,
    );
    match recorder.stop() {
        None => ending,
        Some(stop) => {
            advice.clear();
            stop
        }
    }
}
