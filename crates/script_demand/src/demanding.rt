//! Writing the demand of a script.
ghost use Rattle.std.specs.Prelude.{◌≡◌, ◌≢◌, ◌≤◌, [], List, ℕ, Some, IfOk, IfErr, OnOk, take, vec_capacity};
ghost use Rattle.std.specs.Io.KnownBytes.{Appends};
ghost use Rattle.byte_streams.specs.Faults.{Rose};
ghost use Rattle.line_advice.specs.Blamed.{most_advice};
ghost use Rattle.network_model.specs.DemandTexts.{IsDemandText};
ghost use Rattle.network_model.specs.Runs.{Plan};
ghost use Rattle.script_run.specs.Advised.{IsAdvised};
ghost use Rattle.script_run.specs.Endings.{IsOrNoMemory};
ghost use Rattle.script_run.specs.declared.ending.Ending.{Ending as AnEnding};
ghost use Rattle.script_grammar.specs.Draft.{nothing, routing};
ghost use Rattle.script_grammar.specs.Grammar.{IsBadLine, IsScript};
ghost use Rattle.script_grammar.specs.declared.fault.Fault.{Fault as AFault};
ghost use Rattle.laws_scripts.specs.Asked.{CanBeAsked};
ghost use Rattle.script_demand.specs.Answering.{IsWrittenOrNot};
ghost use Rattle.script_demand.specs.Demanding.{AsksForMemory, DemandsTo, IsDemandOf, IsDemanding, IsDemandingOf, StopsAt};

use crate::asks::Asks;
use crate::script_lines::check_lines;
use crate::writing::demand_text;
use byte_streams::{ReadErr, Sink, Source, read_all, write_all};
use line_advice::make_room;
use rsvp_base::NoMemory;
use script_run::Ending;
use std::alloc::Global;

/// Reads a script of the source to its end, checks its lines, and writes to the sink what each end of its network owes behind the
/// last line and whether that fits. Its events are not run, and nothing is written before all of the input was read and found right.
/// `advice` becomes the text that tells what is wrong with the bad line; where no line is bad, it is empty. There is room for it before
/// the input is read.
///
/// Refusals come in this order: `ReadFault` or `TooLong` while the input is read; `BadLine`; `WriteFault`. `NoMemory` may come at
/// any time before the first byte is written.
#[tactic(auto, using(crate::proofs::Answering::can_take_all))]
pub fn write_demand<C: Asks + Drop, S: Source, K: Sink>(
    alloc: Global,
    checker: C,
    source: &mut S,
    sink: &mut K,
    advice: &mut Vec<u8>,
) -> Ending
    requires first { C.lines checker ≡ nothing }
    ensures demanded { IsDemanding result (S.left source.old) (S.left source.new) (K.holds sink.old) (K.holds sink.new) }
    // Over known input: what is wrong with the bad line is told.
    ensures advised { (bytes : List ℕ) → S.left source.old ≡ Some bytes → IsAdvised result bytes advice.new.items }
    ensures read_fault { result ≡ Ending.ReadFault → Rose (S.faults source.old) (S.faults source.new) }
    // No fault of the source or of the sink is answered as anything else.
    ensures no_read_fault { result ≢ Ending.ReadFault → S.faults source.new ≡ S.faults source.old }
    ensures write_fault { result ≡ Ending.WriteFault → Rose (K.faults sink.old) (K.faults sink.new) }
    ensures no_write_fault { result ≢ Ending.WriteFault → K.faults sink.new ≡ K.faults sink.old }
    // Nothing else ends it over known input and devices that do not fail.
    ensures complete { (bytes : List ℕ) (wanted : AnEnding) → S.left source.old ≡ Some bytes → DemandsTo wanted bytes
        → (Rose (S.faults source.old) (S.faults source.new) → ⊥) → (wanted ≡ Ending.Done → Rose (K.faults sink.old) (K.faults sink.new) → ⊥) → IsOrNoMemory wanted result }
{
    advice.clear();
    match make_room(advice) {
        Ok(()) => {}
        Err(_) => return Ending::NoMemory,
    }
    match read_all(alloc, source) {
        Ok(bytes) => answer(alloc, checker, bytes.as_slice(), sink, advice),
        Err(ReadErr::Fault) => Ending::ReadFault,
        Err(ReadErr::TooLong) => Ending::TooLong,
        Err(ReadErr::NoMemory) => Ending::NoMemory,
    }
}

// Writes the demand of this script.
fn answer<C: Asks + Drop, K: Sink>(
    alloc: Global,
    checker: C,
    input: &[u8],
    sink: &mut K,
    advice: &mut Vec<u8>,
) -> Ending
    requires first { C.lines checker ≡ nothing }
    requires empty { advice.old.items ≡ [] }
    requires room { most_advice ≤ vec_capacity advice.old }
    ensures advised { IsAdvised result input.now advice.new.items }
    ensures demanded { IsDemandingOf result input.now input.now (K.holds sink.old) (K.holds sink.new) }
    ensures read { result ≢ Ending.ReadFault }
    ensures asked { result ≡ Ending.NoMemory → AsksForMemory input.now }
    ensures write_fault { result ≡ Ending.WriteFault → Rose (K.faults sink.old) (K.faults sink.new) }
    ensures no_write_fault { result ≢ Ending.WriteFault → K.faults sink.new ≡ K.faults sink.old }
    ensures complete { (p : Plan) → IsScript input.now p → (Rose (K.faults sink.old) (K.faults sink.new) → ⊥) → IsOrNoMemory Ending.Done result }
    ensures refused { (number : ℕ) (why : AFault) → IsBadLine input.now number why → IsOrNoMemory (Ending.BadLine number why) result }
{
    match demand_of(alloc, checker, input, advice) {
        Ok(text) => write_text(text.as_slice(), sink),
        Err(ending) => ending,
    }
}

// The demand of this script. It ends at the first bad line, or where memory runs out: at a line that asks for some, or where the demand
// of a script is put together.
fn demand_of<C: Asks + Drop>(
    alloc: Global,
    mut checker: C,
    input: &[u8],
    advice: &mut Vec<u8>,
) -> Result<Vec<u8>, Ending>
    requires first { C.lines checker ≡ nothing }
    requires empty { advice.old.items ≡ [] }
    requires room { most_advice ≤ vec_capacity advice.old }
    ensures quiet { OnOk result (advice.new.items ≡ []) }
    ensures advised { IfErr result (λ e. IsAdvised e input.now advice.new.items) }
    ensures demand { IfOk result (λ text. IsDemandOf input.now text.items) }
    ensures stopped { IfErr result (StopsAt input.now) }
    ensures asked { IfErr result (λ e. e ≡ Ending.NoMemory → AsksForMemory input.now) }
{
    match check_lines(alloc, &mut checker, input, advice) {
        Ok(()) => {}
        Err(ending) => return Err(ending),
    }
    match text_of(alloc, &checker) {
        Ok(text) => Ok(text),
        Err(_) => Err(Ending::NoMemory),
    }
}

// The demand of what the lines ask. `NoMemory`: there was no room for it.
fn text_of<C: Asks>(alloc: Global, checker: &C) -> Result<Vec<u8>, NoMemory>
    requires { CanBeAsked (C.lines checker.now) }
    ensures { IfOk result (λ text. IsDemandText (C.lines checker.now).names (routing (C.lines checker.now)) (C.lines checker.now).locals text.items) }
{
    let routing = checker.routing()?;
    let locals = checker.locals()?;
    demand_text(alloc, checker.names(), &routing, &locals)
}

// Writes a text.
fn write_text<K: Sink>(text: &[u8], sink: &mut K) -> Ending
    ensures done { result ≡ Ending.Done → Appends (K.holds sink.old) (K.holds sink.new) text.now }
    ensures write_fault { result ≡ Ending.WriteFault → Rose (K.faults sink.old) (K.faults sink.new) }
    ensures no_write_fault { result ≢ Ending.WriteFault → K.faults sink.new ≡ K.faults sink.old }
    ensures front { result ≡ Ending.WriteFault → ((n : ℕ) × Appends (K.holds sink.old) (K.holds sink.new) (take n text.now)) }
    ensures others { IsWrittenOrNot result }
{
    match write_all(sink, text) {
        Ok(()) => Ending::Done,
        Err(_) => Ending::WriteFault,
    }
}
