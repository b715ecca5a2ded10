//! The lines of bytes.
ghost use Rattle.std.specs.Prelude.{◌≡◌, ◌≤◌, ◌<◌, ◌++◌, ℕ, List, length, OnOk, OnErr, vec_capacity};
ghost use Rattle.std.specs.Io.{StartsWith};
ghost use Rattle.message_show.specs.Readings.{IsReading};

use crate::message::put_message;
use crate::refusal::put_refusal;
use message_codec::decode;
use rsvp_base::NoMemory;

/// Appends the line of the message that these bytes spell, or of their first fault. `NoMemory`: the room that the
/// text had did not suffice, and there was no memory for more; what was there stands at the front of what is.
pub fn put_reading(out: &mut Vec<u8>, bytes: &[u8]) -> Result<(), NoMemory>
    ensures text { OnOk result ((text : List ℕ) × IsReading bytes.now text × (out.new.items ≡ out.old.items ++ text)) }
    ensures front { OnErr result (StartsWith out.new.items out.old.items) }
    ensures full { OnErr result ((text : List ℕ) × IsReading bytes.now text × (vec_capacity out.old < length (out.old.items ++ text))) }
    ensures kept { vec_capacity out.old ≤ vec_capacity out.new }
{
    match decode(bytes) {
        Ok(message) => put_message(out, &message),
        Err(error) => put_refusal(out, error.fault),
    }
}
