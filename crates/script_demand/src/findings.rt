//! Writing what is found in a script.
ghost use Rattle.std.specs.Prelude.{◌≡◌, ◌≢◌, ◌≤◌, [], List, ℕ, Some, IfErr, IfOk, OnOk, take, vec_capacity};
ghost use Rattle.std.specs.Io.KnownBytes.{Appends};
ghost use Rattle.byte_streams.specs.Faults.{Rose};
ghost use Rattle.laws_scripts.specs.Asked.{CanBeAsked};
ghost use Rattle.line_advice.specs.Blamed.{most_advice};
ghost use Rattle.network_model.specs.Runs.{Plan};
ghost use Rattle.script_demand.specs.Answering.{IsWrittenOrNot};
ghost use Rattle.script_demand.specs.Demanding.{DemandsTo, StopsAt};
ghost use Rattle.script_grammar.specs.Draft.{nothing, routing};
ghost use Rattle.script_grammar.specs.Grammar.{IsBadLine, IsScript};
ghost use Rattle.script_grammar.specs.declared.fault.Fault.{Fault as AFault};
ghost use Rattle.script_run.specs.Advised.{IsAdvised};
ghost use Rattle.script_run.specs.Endings.{IsOrNoMemory};
ghost use Rattle.script_run.specs.declared.ending.Ending.{Ending as AnEnding};
ghost use Rattle.script_demand.specs.Findings.{IsFinding, IsFindingOf, IsSaidOf, IsSaying};

use crate::asks::Asks;
use crate::noted_lines::read_lines;
use crate::whole_text::{Saying, findings_text};
use byte_streams::{ReadErr, Sink, Source, read_all, write_all};
use line_advice::make_room;
use network_demand::Begun;
use rsvp_base::{EndName, NoMemory};
use script_run::Ending;
use std::alloc::Global;

/// How the checking of a script ended.
#[derive(Drop)]
pub struct Checked {
    pub ending: Ending,
    /// Whether anything was said but that refreshes crowd no later round.
    pub said: bool,
}

/// Reads a script of the source to its end, checks its lines, and writes to the sink what does not fit in the demands behind the last
/// line, and who meets nobody; and where all fits, how much is in flight once the network has settled. Its events are not run, and
/// nothing is written before all of the input was read and found right. `advice` becomes the text that tells what is wrong with the bad
/// line; where no line is bad, it is empty. There is room for it before the input is read.
///
/// Refusals come in this order: `ReadFault` or `TooLong` while the input is read; `BadLine`; `WriteFault`. `NoMemory` may come at
/// any time before the first byte is written.
#[tactic(auto, using(crate::proofs::Answering::can_take_all))]
pub fn write_findings<C: Asks + Drop, S: Source, K: Sink>(
    alloc: Global,
    checker: C,
    source: &mut S,
    sink: &mut K,
    advice: &mut Vec<u8>,
) -> Checked
    requires first { C.lines checker ≡ nothing }
    ensures found { IsFinding result.said result.ending (S.left source.old) (S.left source.new) (K.holds sink.old) (K.holds sink.new) }
    // Over known input: what is wrong with the bad line is told.
    ensures advised { (bytes : List ℕ) → S.left source.old ≡ Some bytes → IsAdvised result.ending bytes advice.new.items }
    ensures read_fault { result.ending ≡ Ending.ReadFault → Rose (S.faults source.old) (S.faults source.new) }
    // No fault of the source or of the sink is answered as anything else.
    ensures no_read_fault { result.ending ≢ Ending.ReadFault → S.faults source.new ≡ S.faults source.old }
    ensures write_fault { result.ending ≡ Ending.WriteFault → Rose (K.faults sink.old) (K.faults sink.new) }
    ensures no_write_fault { result.ending ≢ Ending.WriteFault → K.faults sink.new ≡ K.faults sink.old }
    // Nothing else ends it over known input and devices that do not fail.
    ensures complete { (bytes : List ℕ) (wanted : AnEnding) → S.left source.old ≡ Some bytes → DemandsTo wanted bytes
        → (Rose (S.faults source.old) (S.faults source.new) → ⊥) → (wanted ≡ Ending.Done → Rose (K.faults sink.old) (K.faults sink.new) → ⊥) → IsOrNoMemory wanted result.ending }
{
    advice.clear();
    match make_room(advice) {
        Ok(()) => {}
        Err(_) => return silent(Ending::NoMemory),
    }
    match read_all(alloc, source) {
        Ok(bytes) => answer(alloc, checker, bytes.as_slice(), sink, advice),
        Err(ReadErr::Fault) => silent(Ending::ReadFault),
        Err(ReadErr::TooLong) => silent(Ending::TooLong),
        Err(ReadErr::NoMemory) => silent(Ending::NoMemory),
    }
}

// It ended so, and nothing was said.
fn silent(ending: Ending) -> Checked
    ensures { result.ending ≡ ending }
{
    Checked {
        ending,
        said: false,
    }
}

// Writes what is found in this script.
fn answer<C: Asks + Drop, K: Sink>(
    alloc: Global,
    checker: C,
    input: &[u8],
    sink: &mut K,
    advice: &mut Vec<u8>,
) -> Checked
    requires first { C.lines checker ≡ nothing }
    requires empty { advice.old.items ≡ [] }
    requires room { most_advice ≤ vec_capacity advice.old }
    ensures advised { IsAdvised result.ending input.now advice.new.items }
    ensures found { IsFindingOf result.said result.ending input.now input.now (K.holds sink.old) (K.holds sink.new) }
    ensures read { result.ending ≢ Ending.ReadFault }
    ensures write_fault { result.ending ≡ Ending.WriteFault → Rose (K.faults sink.old) (K.faults sink.new) }
    ensures no_write_fault { result.ending ≢ Ending.WriteFault → K.faults sink.new ≡ K.faults sink.old }
    ensures complete { (p : Plan) → IsScript input.now p → (Rose (K.faults sink.old) (K.faults sink.new) → ⊥) → IsOrNoMemory Ending.Done result.ending }
    ensures refused { (number : ℕ) (why : AFault) → IsBadLine input.now number why → IsOrNoMemory (Ending.BadLine number why) result.ending }
{
    match findings_of(alloc, checker, input, advice) {
        Ok(saying) => say(saying.text.as_slice(), saying.said, sink),
        Err(ending) => silent(ending),
    }
}

// Writes a text, in which there is something to say, or not.
fn say<K: Sink>(text: &[u8], said: bool, sink: &mut K) -> Checked
    ensures said { result.said ≡ said }
    ensures done { result.ending ≡ Ending.Done → Appends (K.holds sink.old) (K.holds sink.new) text.now }
    ensures write_fault { result.ending ≡ Ending.WriteFault → Rose (K.faults sink.old) (K.faults sink.new) }
    ensures no_write_fault { result.ending ≢ Ending.WriteFault → K.faults sink.new ≡ K.faults sink.old }
    ensures front { result.ending ≡ Ending.WriteFault → ((n : ℕ) × Appends (K.holds sink.old) (K.holds sink.new) (take n text.now)) }
    ensures others { IsWrittenOrNot result.ending }
{
    let ending = write_text(text, sink);
    Checked { ending, said }
}

// What is found in this script. It ends at the first bad line, or where memory runs out.
fn findings_of<C: Asks + Drop>(
    alloc: Global,
    mut checker: C,
    input: &[u8],
    advice: &mut Vec<u8>,
) -> Result<Saying, Ending>
    requires first { C.lines checker ≡ nothing }
    requires empty { advice.old.items ≡ [] }
    requires room { most_advice ≤ vec_capacity advice.old }
    ensures quiet { OnOk result (advice.new.items ≡ []) }
    ensures advised { IfErr result (λ e. IsAdvised e input.now advice.new.items) }
    ensures found { IfOk result (λ s. IsSaidOf s.said input.now s.text.items) }
    ensures stopped { IfErr result (StopsAt input.now) }
{
    let mut nodes = Vec::new(alloc);
    let mut begun = Vec::new(alloc);
    match read_lines(alloc, &mut checker, input, &mut nodes, &mut begun, advice) {
        Ok(()) => {}
        Err(ending) => return Err(ending),
    }
    match text_of(alloc, &checker, nodes.as_slice(), begun.as_slice()) {
        Ok(saying) => Ok(saying),
        Err(_) => Err(Ending::NoMemory),
    }
}

// What is found in what the lines ask, with the names of their nodes and those who ask. `NoMemory`: there was no room for it.
fn text_of<C: Asks>(
    alloc: Global,
    checker: &C,
    nodes: &[EndName],
    begun: &[Begun],
) -> Result<Saying, NoMemory>
    requires { CanBeAsked (C.lines checker.now) }
    ensures { IfOk result (λ s. IsSaying nodes.now (C.lines checker.now).names (routing (C.lines checker.now)) (C.lines checker.now).locals begun.now s.said s.text.items) }
{
    let routing = checker.routing()?;
    let locals = checker.locals()?;
    findings_text(alloc, nodes, checker.names(), &routing, &locals, begun)
}

// Writes a text.
fn write_text<K: Sink>(text: &[u8], sink: &mut K) -> Ending
    ensures done { result ≡ Ending.Done → Appends (K.holds sink.old) (K.holds sink.new) text.now }
    ensures write_fault { result ≡ Ending.WriteFault → Rose (K.faults sink.old) (K.faults sink.new) }
    ensures no_write_fault { result ≢ Ending.WriteFault → K.faults sink.new ≡ K.faults sink.old }
    ensures front { result ≡ Ending.WriteFault → ((n : ℕ) × Appends (K.holds sink.old) (K.holds sink.new) (take n text.now)) }
    ensures others { IsWrittenOrNot result }
{
    match write_all(sink, text) {
        Ok(()) => Ending::Done,
        Err(_) => Ending::WriteFault,
    }
}
