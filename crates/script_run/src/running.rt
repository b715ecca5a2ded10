//! Lines are read, checked, run and written, one after the other.
ghost use Rattle.std.specs.Prelude.{◌≡◌, ◌≢◌, ◌≤◌, [], List, ℕ, Some, length, vec_capacity};
ghost use Rattle.byte_streams.specs.Reading.{most_bytes};
ghost use Rattle.byte_streams.specs.Faults.{Rose};
ghost use Rattle.line_advice.specs.Blamed.{most_advice};
ghost use Rattle.script_grammar.specs.Draft.{Draft, nothing, plan_of};
ghost use Rattle.script_grammar.specs.Grammar.{HasFault};
ghost use Rattle.network_replay.specs.Sights.{Shows};
ghost use Rattle.script_run.specs.Advised.{EndsAt, IsAdvised};
ghost use Rattle.script_run.specs.Playing.{StaysAt, Stops};
ghost use Rattle.script_run.specs.Endings.{ComesTo, IsOrNoMemory, IsRun, ending_at};
ghost use Rattle.script_run.specs.Shown.{script_sights};
ghost use Rattle.script_run.specs.declared.ending.Ending.{Ending as AnEnding};

use crate::crowding::put_crowded;
use crate::ending::Ending;
use crate::player::Player;
use byte_streams::{LineReader, NextLine, Sink, Source, write_all};
use line_advice::make_room;
use network_replay::Watch;
use script_grammar::{Fault, Stop, put_long};
use std::alloc::Global;

/// Reads a script of the source line by line: each line is checked and run by the player, and what it wrote is written to the
/// sink, before the next line is read. The first line at which something is refused ends the run. `watch` sees all that happens: where
/// the run is done, all that there is to be seen of its lines was shown, in order, and nothing else.
///
/// At one line these come in this order: `ReadFault` or `TooLong` while it is read, then `BadLine`, then `Crowded`, then
/// `WriteFault`. `NoMemory`: memory ran out, before a byte was taken or at a line that asks for memory. A line of more than 2,048
/// bytes is bad as soon as so many of it were taken.
///
/// `advice` becomes the text that tells what is wrong with the bad line, or by which line the run is crowded; else it is empty. There is
/// room for it before the first byte is taken; a run that ends as out of memory at a bad line could not look at the lines before.
pub fn run_lines<P: Player, S: Source, K: Sink, W: Watch>(
    alloc: Global,
    player: &mut P,
    source: &mut S,
    sink: &mut K,
    watch: &mut W,
    advice: &mut Vec<u8>,
) -> Ending
    requires first { P.stands player.old nothing }
    ensures run { IsRun (λ d. P.stands player.new d × Shows W.saw watch.old watch.new (script_sights (plan_of d))) result
        (S.left source.old) (S.left source.new) (K.holds sink.old) (K.holds sink.new) }
    ensures read_fault { result ≡ Ending.ReadFault → Rose (S.faults source.old) (S.faults source.new) }
    ensures write_fault { result ≡ Ending.WriteFault → Rose (K.faults sink.old) (K.faults sink.new) }
    // No fault of the source or of the sink is answered as anything else.
    ensures no_read_fault { result ≢ Ending.ReadFault → S.faults source.new ≡ S.faults source.old }
    ensures no_write_fault { result ≢ Ending.WriteFault → K.faults sink.new ≡ K.faults sink.old }
    // Over known input: what is wrong with the bad line is told, or by which line the run is crowded.
    ensures advised { (bytes : List ℕ) → S.left source.old ≡ Some bytes → IsAdvised result bytes advice.new.items }
    // Nothing else ends a run over known input and devices that do not fail.
    ensures complete { (bytes text : List ℕ) (wanted : AnEnding) → S.left source.old ≡ Some bytes → length bytes ≤ most_bytes → ComesTo wanted bytes text
        → (Rose (S.faults source.old) (S.faults source.new) → ⊥) → (Rose (K.faults sink.old) (K.faults sink.new) → ⊥) → IsOrNoMemory wanted result }
{
    run_to_end(alloc, player, source, sink, watch, advice)
}

// Runs line by line.
fn run_to_end<P: Player, S: Source, K: Sink, W: Watch>(
    alloc: Global,
    player: &mut P,
    source: &mut S,
    sink: &mut K,
    watch: &mut W,
    advice: &mut Vec<u8>,
) -> Ending
    requires first { P.stands player.old nothing }
    ensures run { IsRun (λ d. P.stands player.new d × Shows W.saw watch.old watch.new (script_sights (plan_of d))) result
        (S.left source.old) (S.left source.new) (K.holds sink.old) (K.holds sink.new) }
    ensures read_fault { result ≡ Ending.ReadFault → Rose (S.faults source.old) (S.faults source.new) }
    ensures no_read_fault { result ≢ Ending.ReadFault → S.faults source.new ≡ S.faults source.old }
    ensures write_fault { result ≡ Ending.WriteFault → Rose (K.faults sink.old) (K.faults sink.new) }
    ensures no_write_fault { result ≢ Ending.WriteFault → K.faults sink.new ≡ K.faults sink.old }
    ensures advised { (bytes : List ℕ) → S.left source.old ≡ Some bytes → IsAdvised result bytes advice.new.items }
{
    advice.clear();
    let mut reader = match LineReader::open(alloc) {
        Ok(reader) => reader,
        Err(_) => return Ending::NoMemory,
    };
    match make_room(advice) {
        Ok(()) => {}
        Err(_) => return Ending::NoMemory,
    }
    let mut out = Vec::new(alloc);
    loop {
        match reader.next(source) {
            NextLine::Line => {}
            NextLine::Long => {
                put_long(advice);
                return Ending::BadLine {
                    line: reader.number(),
                    why: Fault::Limit,
                };
            }
            NextLine::End => return Ending::Done,
            NextLine::Fault => return Ending::ReadFault,
            NextLine::TooLong => return Ending::TooLong,
        }
        out.clear();
        match player.play(reader.line(), watch, &mut out) {
            Ok(()) => {}
            Err(stop) => {
                let number = reader.number();
                let ends = advise(player, reader.line(), number, stop, advice);
                return ending_at(ends, number);
            }
        }
        match write_all(sink, out.as_slice()) {
            Ok(()) => {}
            Err(_) => return Ending::WriteFault,
        }
    }
}

// Tells what is wrong with the line of this number, which was not run, where it is bad or the run is crowded by it, and gives why the run
// ends: this, or that memory to look at the lines before ran out.
fn advise<P: Player>(player: &P, line: &[u8], number: u32, stop: Stop, advice: &mut Vec<u8>) -> Stop
    requires empty { advice.old.items ≡ [] }
    requires room { most_advice ≤ vec_capacity advice.old }
    ensures { (d : Draft) → StaysAt (P.stands player.now) d stop → Stops stop d line.now → EndsAt d line.now number result advice.new.items }
{
    match stop {
        Stop::Bad(why) => end_bad(player, line, why, advice),
        Stop::Crowded => {
            put_crowded(advice, number);
            Stop::Crowded
        }
        Stop::NoMemory => Stop::NoMemory,
    }
}

// The same of a bad line.
#[tactic(auto, using(crate::proofs::Advising::ends_told, crate::proofs::Advising::ends_untold))]
fn end_bad<P: Player>(player: &P, line: &[u8], why: Fault, advice: &mut Vec<u8>) -> Stop
    requires room { most_advice ≤ vec_capacity advice.old }
    ensures { (d : Draft) → P.stands player.now d → HasFault d line.now why → (number : ℕ) → EndsAt d line.now number result advice.new.items }
{
    match player.advise(line, &why, advice) {
        Ok(()) => Stop::Bad(why),
        Err(_) => Stop::NoMemory,
    }
}

// How a run ends at the line of this number, which was not run.
fn ending_at(stop: Stop, line: u32) -> Ending
    ensures { result ≡ ending_at stop line }
{
    match stop {
        Stop::Bad(why) => Ending::BadLine { line, why },
        Stop::Crowded => Ending::Crowded,
        Stop::NoMemory => Ending::NoMemory,
    }
}
