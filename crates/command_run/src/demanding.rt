//! The demand of a script.
ghost use Rattle.std.specs.Prelude.{◌≡◌, ◌≢◌};
ghost use Rattle.byte_streams.specs.Faults.{Rose};
ghost use Rattle.script_grammar.specs.Draft.{nothing};
ghost use Rattle.command_run.specs.Commands.{Demanded};
ghost use Rattle.command_run.specs.Ran.{device, ran};

use crate::replaying::status_of;
use crate::status::Status;
use byte_streams::{Sink, Source};
use script_demand::{Asks, write_demand};
use std::alloc::Global;

/// Reads a script of the source and writes to the sink what each end of its network owes behind the last line, and whether that
/// fits. Its events are not run, and nothing is written before all of the input was read and found right. `advice` becomes the text
/// that says what is wrong with the bad line; where no line is bad, it is empty.
///
/// Refusals come in this order: `ReadFault` or `TooLong` while the input is read; `BadLine`; `WriteFault`. `NoMemory` may come at
/// any time before the first byte is written.
pub fn demand<C: Asks + Drop, S: Source, K: Sink>(
    alloc: Global,
    checker: C,
    source: &mut S,
    sink: &mut K,
    advice: &mut Vec<u8>,
) -> Status
    requires first { C.lines checker ≡ nothing }
    ensures demanded { Demanded (ran result (device S.left S.faults source.old source.new) (device K.holds K.faults sink.old sink.new) advice.new.items) }
    ensures usage { result ≢ Status.Usage }
    ensures read_fault { result ≡ Status.ReadFault → Rose (S.faults source.old) (S.faults source.new) }
    ensures no_read_fault { result ≢ Status.ReadFault → S.faults source.new ≡ S.faults source.old }
    ensures write_fault { result ≡ Status.WriteFault → Rose (K.faults sink.old) (K.faults sink.new) }
    ensures no_write_fault { result ≢ Status.WriteFault → K.faults sink.new ≡ K.faults sink.old }
{
    let ending = write_demand(alloc, checker, source, sink, advice);
    status_of(ending)
}
