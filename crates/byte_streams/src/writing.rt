//! Writing a text whole.
ghost use Rattle.std.specs.Prelude.{◌≡◌, ◌≤◌, ℕ, length, take, OnOk, OnErr};
ghost use Rattle.std.specs.Io.KnownBytes.{Appends};
ghost use Rattle.byte_streams.specs.Faults.{HasCause};

use crate::streams::{Failed, Sink};

/// Appends all these bytes to a sink.
///
/// `Failed` comes only where the sink's count of faults rose in this call, or stands at its last value. Some
/// front of the bytes was appended then.
pub fn write_all<K: Sink>(sink: &mut K, bytes: &[u8]) -> Result<(), Failed>
    ensures written { OnOk result (Appends (K.holds sink.old) (K.holds sink.new) bytes.now) }
    ensures stopped { OnErr result (
        (n : ℕ) × (n ≤ length bytes.now) × Appends (K.holds sink.old) (K.holds sink.new) (take n bytes.now)) }
    ensures cause { HasCause (K.faults sink.old) (K.faults sink.new) result }
    // No fault of the sink is answered as anything else.
    ensures no_fault { OnOk result (K.faults sink.new ≡ K.faults sink.old) }
{
    let mut done = 0;
    while done < bytes.len() {
        match sink.give(&bytes[done..])? {
            0 => return Err(Failed),
            count => done += count,
        }
    }
    Ok(())
}
