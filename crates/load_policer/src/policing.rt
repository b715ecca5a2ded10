//! Lines are read and policed, and the answers to their packets are written.
ghost use Rattle.std.specs.Prelude.{◌≡◌, ◌≢◌, ◌≤◌, ◌+◌, [], List, ℕ, Some, IfOk, OnOk, OnErr, false, length, take, vec_len, vec_capacity};
ghost use Rattle.std.specs.Io.KnownBytes.{Appends};
ghost use Rattle.byte_streams.specs.Reading.{most_bytes};
ghost use Rattle.byte_streams.specs.Faults.{HasCause, Rose};
ghost use Rattle.script_words.specs.declared.fault.LineWhy.TheVariants as why;
ghost use Rattle.line_advice.specs.Blamed.{most_advice};
ghost use Rattle.load_policer.specs.Advice.{IsAdvice, IsAdvised};
ghost use Rattle.load_policer.specs.Drafts.{Draft};
ghost use Rattle.load_policer.specs.Endings.{ComesTo, IsOrNoMemory, IsPoliced};
ghost use Rattle.load_policer.specs.Finishing.{Finishes, IsFlushed, IsNoLine, IsAdvisedAt};
ghost use Rattle.load_policer.specs.Standings.{Stands};
ghost use Rattle.load_policer.specs.declared.ending.Ending.{Ending as AnEnding};
ghost use Rattle.load_policer.specs.declared.ending.Ending.TheVariants as ending;

use crate::advice::{put_advice, put_long};
use crate::ending::Ending;
use crate::standing::Standing;
use byte_streams::{Failed, LineReader, NextLine, Sink, Source, write_all};
use line_advice::make_room;
use rsvp_base::NoMemory;
use script_words::LineWhy;
use std::alloc::Global;

// The most bytes of text that wait to be written, and how many one line, or the last one, may add.
const ROOM: usize = 4096;

const MOST_TEXT: usize = 64;

/// Reads a stream of packets of the source line by line, the flow first, and writes to the sink whether each packet passes: before the
/// source is asked for more, all answers are written. At the end it writes how many passed, of how many. The first line at which
/// something is refused ends the run.
///
/// At one line these come in this order: `ReadFault` or `TooLong` while it is read, then `BadLine`, then `WriteFault`. A line of more
/// than 2,048 bytes is bad as soon as so many of it were taken. `NoMemory`: there was no memory for the reader, for the text that waits
/// and for `advice`; nothing was taken or written then, and none is taken afterwards.
///
/// `advice` becomes the text that says what is wrong with the bad line; where no line is bad, it is empty.
pub fn police<S: Source, K: Sink>(
    alloc: Global,
    source: &mut S,
    sink: &mut K,
    advice: &mut Vec<u8>,
) -> Ending
    ensures policed { IsPoliced result (S.left source.old) (S.left source.new) (K.holds sink.old) (K.holds sink.new) }
    ensures read_fault { result ≡ Ending.ReadFault → Rose (S.faults source.old) (S.faults source.new) }
    // No fault of the source or of the sink is answered as anything else.
    ensures no_read_fault { result ≢ Ending.ReadFault → S.faults source.new ≡ S.faults source.old }
    ensures write_fault { result ≡ Ending.WriteFault → Rose (K.faults sink.old) (K.faults sink.new) }
    ensures no_write_fault { result ≢ Ending.WriteFault → K.faults sink.new ≡ K.faults sink.old }
    // Over known input: `advice` says what is wrong with the bad line.
    ensures advised { (bytes : List ℕ) → S.left source.old ≡ Some bytes → IsAdvised result bytes advice.new.items }
    // Nothing else ends it over known input and devices that do not fail.
    ensures complete { (bytes text : List ℕ) (wanted : AnEnding) → S.left source.old ≡ Some bytes → length bytes ≤ most_bytes → ComesTo wanted bytes text
        → (Rose (S.faults source.old) (S.faults source.new) → ⊥) → (Rose (K.faults sink.old) (K.faults sink.new) → ⊥) → IsOrNoMemory wanted result }
{
    police_to_end(alloc, source, sink, advice)
}

// Polices line by line.
fn police_to_end<S: Source, K: Sink>(
    alloc: Global,
    source: &mut S,
    sink: &mut K,
    advice: &mut Vec<u8>,
) -> Ending
    ensures policed { IsPoliced result (S.left source.old) (S.left source.new) (K.holds sink.old) (K.holds sink.new) }
    ensures read_fault { result ≡ Ending.ReadFault → Rose (S.faults source.old) (S.faults source.new) }
    ensures no_read_fault { result ≢ Ending.ReadFault → S.faults source.new ≡ S.faults source.old }
    ensures write_fault { result ≡ Ending.WriteFault → Rose (K.faults sink.old) (K.faults sink.new) }
    ensures no_write_fault { result ≢ Ending.WriteFault → K.faults sink.new ≡ K.faults sink.old }
    ensures advised { (bytes : List ℕ) → S.left source.old ≡ Some bytes → IsAdvised result bytes advice.new.items }
{
    advice.clear();
    let mut reader = match LineReader::open(alloc) {
        Ok(reader) => reader,
        Err(_) => return Ending::NoMemory,
    };
    let mut out = match room(alloc) {
        Ok(out) => out,
        Err(_) => return Ending::NoMemory,
    };
    match make_room(advice) {
        Ok(()) => {}
        Err(_) => return Ending::NoMemory,
    }
    let mut standing = Standing::new();
    loop {
        match write_waiting(sink, &mut out, reader.has_line()) {
            Ok(()) => {}
            Err(_) => return Ending::WriteFault,
        }
        match reader.next(source) {
            NextLine::Line => {}
            NextLine::Long => return end_long(sink, &out, reader.number(), advice),
            NextLine::End => {
                standing.put_counts(&mut out);
                return end(sink, &out);
            }
            NextLine::Fault => return Ending::ReadFault,
            NextLine::TooLong => return Ending::TooLong,
        }
        match standing.add(reader.line(), &mut out) {
            Ok(()) => {}
            Err(why) => {
                let number = reader.number();
                return end_bad(sink, &out, &standing, reader.line(), number, why, advice);
            }
        }
    }
}

// Room for the text that waits.
fn room(alloc: Global) -> Result<Vec<u8>, NoMemory>
    ensures items { IfOk result (λ v. v.items ≡ []) }
    ensures len { IfOk result (λ v. vec_len v ≡ 0) }
    ensures room { IfOk result (λ v. 4096 ≤ vec_capacity v) }
{
    Ok(Vec::with_capacity(alloc, ROOM)?)
}

// Writes the text that waits, unless the next line is at hand, so that the source is not asked for it, and there is room for what it
// adds: no text waits while the source is asked.
#[tactic(auto, using(crate::proofs::Finishing::nothing_flushed))]
fn write_waiting<K: Sink>(sink: &mut K, out: &mut Vec<u8>, at_hand: bool) -> Result<(), Failed>
    requires room { 4096 ≤ vec_capacity out.old }
    ensures ok { OnOk result (IsFlushed (K.holds sink.old) (K.holds sink.new) out.old.items out.new.items) }
    ensures none { OnOk result (at_hand ≡ false → out.new.items ≡ []) }
    ensures room { OnOk result ((vec_len out.new + 64 ≤ vec_capacity out.new) × (4096 ≤ vec_capacity out.new)) }
    ensures err { OnErr result ((n : ℕ) × Appends (K.holds sink.old) (K.holds sink.new) (take n out.old.items)) }
    ensures cause { HasCause (K.faults sink.old) (K.faults sink.new) result }
    ensures no_fault { OnOk result (K.faults sink.new ≡ K.faults sink.old) }
{
    if at_hand && out.len() <= ROOM - MOST_TEXT {
        return Ok(());
    }
    write_out(sink, out)
}

// Writes the text that waits.
fn write_out<K: Sink>(sink: &mut K, out: &mut Vec<u8>) -> Result<(), Failed>
    requires room { 4096 ≤ vec_capacity out.old }
    ensures ok { OnOk result (IsFlushed (K.holds sink.old) (K.holds sink.new) out.old.items out.new.items) }
    ensures none { OnOk result (out.new.items ≡ []) }
    ensures room { OnOk result ((vec_len out.new + 64 ≤ vec_capacity out.new) × (4096 ≤ vec_capacity out.new)) }
    ensures err { OnErr result ((n : ℕ) × Appends (K.holds sink.old) (K.holds sink.new) (take n out.old.items)) }
    ensures cause { HasCause (K.faults sink.old) (K.faults sink.new) result }
    ensures no_fault { OnOk result (K.faults sink.new ≡ K.faults sink.old) }
{
    match write_all(sink, out.as_slice()) {
        Ok(()) => {
            out.clear();
            Ok(())
        }
        Err(failed) => Err(failed),
    }
}

// Writes the text that waits, the last of all, and ends.
fn end<K: Sink>(sink: &mut K, text: &Vec<u8>) -> Ending
    ensures ended { Finishes ending.Done result (K.holds sink.old) (K.holds sink.new) text.now.items }
    ensures no_line { IsNoLine result }
    ensures read { result ≢ Ending.ReadFault }
    ensures later { K.faults sink.old ≤ K.faults sink.new }
    ensures cause { result ≡ Ending.WriteFault → Rose (K.faults sink.old) (K.faults sink.new) }
    ensures no_write_fault { result ≢ Ending.WriteFault → K.faults sink.new ≡ K.faults sink.old }
{
    match write_all(sink, text.as_slice()) {
        Ok(()) => Ending::Done,
        Err(_) => Ending::WriteFault,
    }
}

// Writes the text that waits, and ends at the line of this number, which is too long.
fn end_long<K: Sink>(sink: &mut K, text: &Vec<u8>, number: u32, advice: &mut Vec<u8>) -> Ending
    requires quiet { advice.old.items ≡ [] }
    requires room { most_advice ≤ vec_capacity advice.old }
    ensures ended { Finishes (ending.BadLine number why.Limit) result (K.holds sink.old) (K.holds sink.new) text.now.items }
    ensures read { result ≢ Ending.ReadFault }
    ensures later { K.faults sink.old ≤ K.faults sink.new }
    ensures cause { result ≡ Ending.WriteFault → Rose (K.faults sink.old) (K.faults sink.new) }
    ensures no_write_fault { result ≢ Ending.WriteFault → K.faults sink.new ≡ K.faults sink.old }
    ensures advised { IsAdvisedAt (λ t. (d : Draft) (line : List ℕ) → IsAdvice d line why.Limit t) result advice.new.items }
{
    match write_all(sink, text.as_slice()) {
        Ok(()) => {
            put_long(advice);
            Ending::BadLine {
                line: number,
                why: LineWhy::Limit,
            }
        }
        Err(_) => Ending::WriteFault,
    }
}

// Writes the text that waits, and ends at this line, which is bad.
fn end_bad<K: Sink>(
    sink: &mut K,
    text: &Vec<u8>,
    standing: &Standing,
    line: &[u8],
    number: u32,
    fault: LineWhy,
    advice: &mut Vec<u8>,
) -> Ending
    requires quiet { advice.old.items ≡ [] }
    requires room { most_advice ≤ vec_capacity advice.old }
    ensures ended { Finishes (ending.BadLine number fault) result (K.holds sink.old) (K.holds sink.new) text.now.items }
    ensures read { result ≢ Ending.ReadFault }
    ensures later { K.faults sink.old ≤ K.faults sink.new }
    ensures cause { result ≡ Ending.WriteFault → Rose (K.faults sink.old) (K.faults sink.new) }
    ensures no_write_fault { result ≢ Ending.WriteFault → K.faults sink.new ≡ K.faults sink.old }
    ensures advised { IsAdvisedAt (λ t. (d : Draft) → Stands standing.now d → IsAdvice d line.now fault t) result advice.new.items }
{
    match write_all(sink, text.as_slice()) {
        Ok(()) => {
            put_advice(standing, line, fault, advice);
            Ending::BadLine {
                line: number,
                why: fault,
            }
        }
        Err(_) => Ending::WriteFault,
    }
}
