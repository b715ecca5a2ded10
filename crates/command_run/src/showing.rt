//! Showing messages.
ghost use Rattle.std.specs.Prelude.{◌≡◌, ◌≢◌, List, ℕ, Some, take};
ghost use Rattle.std.specs.Io.KnownBytes.{Appends};
ghost use Rattle.byte_streams.specs.Faults.{Rose};
ghost use Rattle.message_show.specs.ShowLines.{AreRight, IsBadDigits, IsShown};
ghost use Rattle.script_demand.specs.Answering.{IsAnswering, IsAnsweringOf, IsWrittenOrNot};
ghost use Rattle.script_words.specs.declared.fault.LineErr.{LineErr as ALineErr};
ghost use Rattle.command_run.specs.Advised.{IsShowAdvised};
ghost use Rattle.command_run.specs.Commands.{Shown};
ghost use Rattle.command_run.specs.Ran.{device, ran};
ghost use Rattle.command_run.specs.Showing.{IsFirstBad, ShowsTo, fault_of};
ghost use Rattle.command_run.specs.Statuses.{IsOrNoMemory, status_of};
ghost use Rattle.command_run.specs.declared.status.Status.{Status as AStatus};
ghost use Rattle.command_run.specs.declared.status.Status.TheVariants as status;

use crate::replaying::status_of;
use crate::status::Status;
use byte_streams::{ReadErr, Sink, Source, read_all, write_all};
use message_show::show;
use script_grammar::Fault;
use script_run::Ending;
use script_words::{LineWhy, ParseErr};
use std::alloc::Global;

/// Reads messages of the source as lines of hexadecimal digits, and writes a line of words for each to the sink. Nothing is written
/// before all of the input was read and found right. `advice` becomes the text that says what is wrong with the bad line; where no
/// line is bad, it is empty.
///
/// Refusals come in this order: `ReadFault` or `TooLong` while the input is read; `BadLine`; `WriteFault`. `NoMemory` may come at
/// any time before the first byte is written.
pub fn show_messages<S: Source, K: Sink>(
    alloc: Global,
    source: &mut S,
    sink: &mut K,
    advice: &mut Vec<u8>,
) -> Status
    ensures shown { Shown (ran result (device S.left S.faults source.old source.new) (device K.holds K.faults sink.old sink.new) advice.new.items) }
    ensures usage { result ≢ Status.Usage }
    ensures read_fault { result ≡ Status.ReadFault → Rose (S.faults source.old) (S.faults source.new) }
    ensures no_read_fault { result ≢ Status.ReadFault → S.faults source.new ≡ S.faults source.old }
    ensures write_fault { result ≡ Status.WriteFault → Rose (K.faults sink.old) (K.faults sink.new) }
    ensures no_write_fault { result ≢ Status.WriteFault → K.faults sink.new ≡ K.faults sink.old }
{
    let ending = write_shown(alloc, source, sink, advice);
    status_of(ending)
}

// Reads messages, and writes what is shown of them.
#[tactic(auto, using(script_demand::proofs::Answering::can_take_all))]
fn write_shown<S: Source, K: Sink>(
    alloc: Global,
    source: &mut S,
    sink: &mut K,
    advice: &mut Vec<u8>,
) -> Ending
    ensures advised { (bytes : List ℕ) → S.left source.old ≡ Some bytes → IsShowAdvised (status_of result) bytes advice.new.items }
    ensures shown { IsAnswering IsShown IsFirstBad result (S.left source.old) (S.left source.new) (K.holds sink.old) (K.holds sink.new) }
    ensures read_fault { result ≡ Ending.ReadFault → Rose (S.faults source.old) (S.faults source.new) }
    ensures no_read_fault { result ≢ Ending.ReadFault → S.faults source.new ≡ S.faults source.old }
    ensures write_fault { result ≡ Ending.WriteFault → Rose (K.faults sink.old) (K.faults sink.new) }
    ensures no_write_fault { result ≢ Ending.WriteFault → K.faults sink.new ≡ K.faults sink.old }
    ensures complete { (bytes : List ℕ) (wanted : AStatus) → S.left source.old ≡ Some bytes → ShowsTo wanted bytes
        → (Rose (S.faults source.old) (S.faults source.new) → ⊥) → (wanted ≡ status.Done → Rose (K.faults sink.old) (K.faults sink.new) → ⊥) → IsOrNoMemory wanted (status_of result) }
{
    advice.clear();
    match read_all(alloc, source) {
        Ok(bytes) => answer(alloc, bytes.as_slice(), sink, advice),
        Err(ReadErr::Fault) => Ending::ReadFault,
        Err(ReadErr::TooLong) => Ending::TooLong,
        Err(ReadErr::NoMemory) => Ending::NoMemory,
    }
}

// Writes what is shown of this input.
fn answer<K: Sink>(alloc: Global, input: &[u8], sink: &mut K, advice: &mut Vec<u8>) -> Ending
    ensures advised { IsShowAdvised (status_of result) input.now advice.new.items }
    ensures shown { IsAnsweringOf IsShown IsFirstBad result input.now input.now (K.holds sink.old) (K.holds sink.new) }
    ensures read { result ≢ Ending.ReadFault }
    ensures write_fault { result ≡ Ending.WriteFault → Rose (K.faults sink.old) (K.faults sink.new) }
    ensures no_write_fault { result ≢ Ending.WriteFault → K.faults sink.new ≡ K.faults sink.old }
    ensures complete { AreRight input.now → (Rose (K.faults sink.old) (K.faults sink.new) → ⊥) → IsOrNoMemory status.Done (status_of result) }
    ensures refused { (e : ALineErr) → IsBadDigits input.now e → IsOrNoMemory (status.BadLine e.line (fault_of e.why)) (status_of result) }
{
    match show(alloc, input, advice) {
        Ok(text) => write_text(text.as_slice(), sink),
        Err(ParseErr::Line(e)) => Ending::BadLine {
            line: e.line,
            why: fault_of(e.why),
        },
        Err(ParseErr::NoMemory) => Ending::NoMemory,
    }
}

/// The same reason, of a line of a script.
pub fn fault_of(why: LineWhy) -> Fault
    ensures { result ≡ fault_of why }
{
    match why {
        LineWhy::Word => Fault::Word,
        LineWhy::Late => Fault::Late,
        LineWhy::Range => Fault::Range,
        LineWhy::Name => Fault::Name,
        LineWhy::Twice => Fault::Twice,
        LineWhy::Limit => Fault::Limit,
        // A line of digits reserves nothing.
        LineWhy::Over => Fault::Limit,
    }
}

// Writes a text.
fn write_text<K: Sink>(text: &[u8], sink: &mut K) -> Ending
    ensures done { result ≡ Ending.Done → Appends (K.holds sink.old) (K.holds sink.new) text.now }
    ensures write_fault { result ≡ Ending.WriteFault → Rose (K.faults sink.old) (K.faults sink.new) }
    ensures no_write_fault { result ≢ Ending.WriteFault → K.faults sink.new ≡ K.faults sink.old }
    ensures front { result ≡ Ending.WriteFault → ((n : ℕ) × Appends (K.holds sink.old) (K.holds sink.new) (take n text.now)) }
    ensures others { IsWrittenOrNot result }
{
    match write_all(sink, text) {
        Ok(()) => Ending::Done,
        Err(_) => Ending::WriteFault,
    }
}
