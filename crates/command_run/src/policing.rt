//! Policing a stream of packets.
ghost use Rattle.std.specs.Prelude.{◌≡◌, ◌≢◌};
ghost use Rattle.byte_streams.specs.Faults.{Rose};
ghost use Rattle.command_run.specs.Policing.{Policed, police_status};
ghost use Rattle.command_run.specs.Ran.{device, ran};

use crate::showing::fault_of;
use crate::status::Status;
use byte_streams::{Sink, Source};
use load_policer::{Ending, police};
use std::alloc::Global;

/// Reads a stream of packets of the source, the flow first, and writes to the sink for each packet whether it passes, before the next
/// is waited for, and at the end how many passed. `advice` becomes the text that says what is wrong with the bad line; where no line
/// is bad, it is empty.
///
/// At one line these come in this order: `ReadFault` or `TooLong` while it is read, then `BadLine`, then `WriteFault`. `NoMemory` comes
/// before the first byte is read.
pub fn police_packets<S: Source, K: Sink>(
    alloc: Global,
    source: &mut S,
    sink: &mut K,
    advice: &mut Vec<u8>,
) -> Status
    ensures policed { Policed (ran result (device S.left S.faults source.old source.new) (device K.holds K.faults sink.old sink.new) advice.new.items) }
    ensures usage { result ≢ Status.Usage }
    ensures read_fault { result ≡ Status.ReadFault → Rose (S.faults source.old) (S.faults source.new) }
    ensures no_read_fault { result ≢ Status.ReadFault → S.faults source.new ≡ S.faults source.old }
    ensures write_fault { result ≡ Status.WriteFault → Rose (K.faults sink.old) (K.faults sink.new) }
    ensures no_write_fault { result ≢ Status.WriteFault → K.faults sink.new ≡ K.faults sink.old }
{
    let ending = police(alloc, source, sink, advice);
    police_status(ending)
}

// The status of policing that ended so.
fn police_status(ending: Ending) -> Status
    ensures { result ≡ police_status ending }
{
    match ending {
        Ending::Done => Status::Done,
        Ending::BadLine { line, why } => Status::BadLine {
            line,
            why: fault_of(why),
        },
        Ending::ReadFault => Status::ReadFault,
        Ending::WriteFault => Status::WriteFault,
        Ending::NoMemory => Status::NoMemory,
        Ending::TooLong => Status::TooLong,
    }
}
