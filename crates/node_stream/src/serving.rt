//! Frames are read and served, and their answers are written.
ghost use Rattle.std.specs.Prelude.{◌≡◌, ◌≢◌, ◌≤◌, ◌<◌, List, ℕ, length, Some, IfOk, vec_capacity};
ghost use Rattle.byte_streams.specs.Faults.{Rose};
ghost use Rattle.script_words.specs.declared.fault.LineWhy.TheVariants as why;
ghost use Rattle.line_advice.specs.Blamed.{most_advice};
ghost use Rattle.node_stream.specs.Advice.{IsAdvice};
ghost use Rattle.node_stream.specs.Blames.{why_of};
ghost use Rattle.node_stream.specs.Endings.{ComesTo, IsAdvised, IsCutBlame, IsOrNoMemory, IsServed, most_bytes};
ghost use Rattle.node_stream.specs.Frames.{IsPart};
ghost use Rattle.node_stream.specs.Stops.{IsAdvisedAt, ending_at};
ghost use Rattle.node_stream.specs.declared.ending.Ending.{Ending as AnEnding};

use crate::acting::serve_frame;
use crate::advice::put_advice;
use crate::blame::{Blame, why_of};
use crate::ending::Ending;
use crate::frame::length_at;
use crate::posting::Answers;
use crate::reading::{HEAD, Read, read_frame};
use crate::serves::Serves;
use crate::state::{Limits, Stop};
use byte_streams::{Sink, Source, write_all};
use line_advice::make_room;
use rsvp_base::NoMemory;
use std::alloc::Global;

// The most bytes of a stream.
const MOST_BYTES: u64 = 4_294_967_296;

// Room for a frame: its head, and 65,535 bytes of contents.
const ROOM: usize = 65_538;

// How many bytes are asked for at a time.
const PIECE: usize = 4096;

/// Serves the frames of the source one after the other: the first opens a router, and each behind it comes to it. Before the source is
/// asked for more, the frames of all that the router sends for one are written to the sink, and behind them, where a datagram came,
/// what was made of it. The first frame that breaks a rule ends the service.
///
/// At one frame these come in this order: `ReadFault` or `TooLong` while it is read, then `BadFrame`, then `WriteFault`. `NoMemory`:
/// there was no room for a frame, for answers and for `advice`, before anything was taken, or for the router that the first frame opens,
/// whose numbers are in range; nothing was written then, and no memory is taken afterwards. No byte behind the frame at which it ended
/// is taken.
///
/// `advice` becomes the text that says what is wrong with the bad frame; where no frame is bad, it is empty.
pub fn serve<R: Serves, S: Source, K: Sink>(
    alloc: Global,
    source: &mut S,
    sink: &mut K,
    advice: &mut Vec<u8>,
) -> Ending
    ensures served { IsServed result (S.left source.old) (S.left source.new) (K.holds sink.old) (K.holds sink.new) }
    ensures read_fault { result ≡ Ending.ReadFault → Rose (S.faults source.old) (S.faults source.new) }
    // No fault of the source or of the sink is answered as anything else.
    ensures no_read_fault { result ≢ Ending.ReadFault → S.faults source.new ≡ S.faults source.old }
    ensures write_fault { result ≡ Ending.WriteFault → Rose (K.faults sink.old) (K.faults sink.new) }
    ensures no_write_fault { result ≢ Ending.WriteFault → K.faults sink.new ≡ K.faults sink.old }
    // Over known input: `advice` says what is wrong with the bad frame.
    ensures advised { (bytes : List ℕ) → S.left source.old ≡ Some bytes → IsAdvised result bytes advice.new.items }
    // Nothing else ends it over known input and devices that do not fail.
    ensures complete { (bytes text : List ℕ) (wanted : AnEnding) → S.left source.old ≡ Some bytes → length bytes ≤ most_bytes → ComesTo wanted bytes text
        → (Rose (S.faults source.old) (S.faults source.new) → ⊥) → (Rose (K.faults sink.old) (K.faults sink.new) → ⊥) → IsOrNoMemory wanted result }
{
    serve_to_end::<R, S, K>(alloc, source, sink, advice)
}

// Serves frame by frame.
fn serve_to_end<R: Serves, S: Source, K: Sink>(
    alloc: Global,
    source: &mut S,
    sink: &mut K,
    advice: &mut Vec<u8>,
) -> Ending
    ensures served { IsServed result (S.left source.old) (S.left source.new) (K.holds sink.old) (K.holds sink.new) }
    ensures read_fault { result ≡ Ending.ReadFault → Rose (S.faults source.old) (S.faults source.new) }
    ensures no_read_fault { result ≢ Ending.ReadFault → S.faults source.new ≡ S.faults source.old }
    ensures write_fault { result ≡ Ending.WriteFault → Rose (K.faults sink.old) (K.faults sink.new) }
    ensures no_write_fault { result ≢ Ending.WriteFault → K.faults sink.new ≡ K.faults sink.old }
    ensures advised { (bytes : List ℕ) → S.left source.old ≡ Some bytes → IsAdvised result bytes advice.new.items }
{
    advice.clear();
    let mut out = match Answers::open(alloc) {
        Ok(out) => out,
        Err(_) => return Ending::NoMemory,
    };
    let mut frame = match room_for_frame(alloc) {
        Ok(frame) => frame,
        Err(_) => return Ending::NoMemory,
    };
    match make_room(advice) {
        Ok(()) => {}
        Err(_) => return Ending::NoMemory,
    }
    let mut piece = [0u8; PIECE];
    let mut router: Option<R> = None;
    let mut limits = Limits {
        ifaces: 0,
        quarter: 0,
    };
    let mut taken = 0u64;
    let mut number = 1u32;
    loop {
        match read_frame(source, &mut piece, MOST_BYTES - taken, &mut frame) {
            Read::Whole => {}
            Read::Ended => {
                if frame.is_empty() {
                    return Ending::Done;
                }
                return end_bad(cut_blame(frame.as_slice()), number, advice);
            }
            Read::Failed => return Ending::ReadFault,
            Read::Long => return Ending::TooLong,
        }
        taken += frame.len() as u64;
        out.clear();
        match serve_frame(alloc, &mut router, &mut limits, frame.as_slice(), &mut out) {
            Ok(()) => {}
            Err(stop) => return end_stopped(stop, number, advice),
        }
        match write_all(sink, out.bytes()) {
            Ok(()) => {}
            Err(_) => return Ending::WriteFault,
        }
        number = number.saturating_add(1);
    }
}

// Room for a frame.
fn room_for_frame(alloc: Global) -> Result<Vec<u8>, NoMemory>
    ensures room { IfOk result (λ v. 65538 ≤ vec_capacity v) }
{
    Ok(Vec::with_capacity(alloc, ROOM)?)
}

// What is to blame where the input ends inside a frame of which this came.
fn cut_blame(part: &[u8]) -> Blame
    requires some { 0 < length part.now }
    requires part { IsPart part.now }
    ensures blamed { IsCutBlame part.now result }
    ensures word { why_of result ≡ why.Word }
{
    if part.len() < HEAD {
        return Blame::Head;
    }
    Blame::Cut {
        kind: part[0],
        wanted: length_at(part),
        got: part.len() - HEAD,
    }
}

// Ends at the frame of this number, which is bad.
fn end_bad(blame: Blame, number: u32, advice: &mut Vec<u8>) -> Ending
    requires room { most_advice ≤ vec_capacity advice.old }
    ensures ends { result ≡ Ending.BadFrame number (why_of blame) }
    ensures advised { IsAdvice blame advice.new.items }
{
    put_advice(blame, advice);
    Ending::BadFrame {
        frame: number,
        why: why_of(blame),
    }
}

// Ends at the frame of this number, which is not served.
fn end_stopped(stop: Stop, number: u32, advice: &mut Vec<u8>) -> Ending
    requires room { most_advice ≤ vec_capacity advice.old }
    ensures ends { result ≡ ending_at number stop }
    ensures advised { IsAdvisedAt stop advice.old.items advice.new.items }
{
    match stop {
        Stop::Bad(blame) => end_bad(blame, number, advice),
        Stop::NoMemory => Ending::NoMemory,
    }
}
