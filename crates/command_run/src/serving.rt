//! Serving one router over a stream.
ghost use Rattle.std.specs.Prelude.{◌≡◌, ◌≢◌};
ghost use Rattle.byte_streams.specs.Faults.{Rose};
ghost use Rattle.command_run.specs.Ran.{device, ran};
ghost use Rattle.command_run.specs.Serving.{Served, serve_status};

use crate::showing::fault_of;
use crate::status::Status;
use byte_streams::{Sink, Source};
use node_stream::{Ending, Serves, serve};
use std::alloc::Global;

/// Reads a stream of frames of the source, and writes to the sink for each the frames with which one router answers it, before the next
/// is asked for. The first frame says where the router stands. `advice` becomes the text that says what is wrong with the bad frame;
/// where no frame is bad, it is empty.
///
/// At one frame these come in this order: `ReadFault` or `TooLong` (of more than 4,294,967,296 bytes) while it is read, then `BadLine`
/// with the number of the frame, then `WriteFault`. `NoMemory` comes before the first byte is read, or at the first frame; nothing is
/// written then. No byte behind the frame at which it ended is taken.
pub fn serve_router<R: Serves, S: Source, K: Sink>(
    alloc: Global,
    source: &mut S,
    sink: &mut K,
    advice: &mut Vec<u8>,
) -> Status
    ensures served { Served (ran result (device S.left S.faults source.old source.new) (device K.holds K.faults sink.old sink.new) advice.new.items) }
    ensures usage { result ≢ Status.Usage }
    ensures read_fault { result ≡ Status.ReadFault → Rose (S.faults source.old) (S.faults source.new) }
    ensures no_read_fault { result ≢ Status.ReadFault → S.faults source.new ≡ S.faults source.old }
    ensures write_fault { result ≡ Status.WriteFault → Rose (K.faults sink.old) (K.faults sink.new) }
    ensures no_write_fault { result ≢ Status.WriteFault → K.faults sink.new ≡ K.faults sink.old }
{
    let ending = serve::<R, S, K>(alloc, source, sink, advice);
    serve_status(ending)
}

// The status of a service that ended so.
fn serve_status(ending: Ending) -> Status
    ensures { result ≡ serve_status ending }
{
    match ending {
        Ending::Done => Status::Done,
        Ending::BadFrame { frame, why } => Status::BadLine {
            line: frame,
            why: fault_of(why),
        },
        Ending::ReadFault => Status::ReadFault,
        Ending::WriteFault => Status::WriteFault,
        Ending::NoMemory => Status::NoMemory,
        Ending::TooLong => Status::TooLong,
    }
}
