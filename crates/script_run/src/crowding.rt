//! What is said of the line by which a run is crowded.
ghost use Rattle.std.specs.Prelude.{◌≡◌, ◌≤◌, ◌<◌, ◌++◌, OnErr, OnOk, length, vec_capacity};
ghost use Rattle.line_advice.specs.Blamed.{most_advice};
ghost use Rattle.script_run.specs.Advised.{crowded_text, crowded_words};

use rsvp_base::NoMemory;
use value_texts::{put, put_number};

/// Makes `advice`, for which there is room, the text that tells that the run is crowded by the line of this number, and what lets
/// datagrams arrive.
pub(crate) fn put_crowded(advice: &mut Vec<u8>, number: u32)
    requires room { most_advice ≤ vec_capacity advice.old }
    ensures { advice.new.items ≡ crowded_text number }
{
    advice.clear();
    match put_line(advice, number) {
        Ok(()) => {}
        Err(_) => {}
    }
}

#[tactic(auto, using(crate::proofs::Crowded::crowded_short), unfolding(crate::specs::Advised::crowded_text))]
fn put_line(out: &mut Vec<u8>, number: u32) -> Result<(), NoMemory>
    ensures text { OnOk result (out.new.items ≡ out.old.items ++ crowded_text number) }
    ensures full { OnErr result (vec_capacity out.old < length (out.old.items ++ crowded_text number)) }
    ensures few { length (crowded_text number) ≤ most_advice }
{
    put(out, b"  line ")?;
    put_number(out, u64::from(number))?;
    put(out, crowded_words())
}

#[tactic(auto, unfolding(crate::specs::Advised::crowded_words))]
fn crowded_words() -> &'static [u8]
    ensures { result.now ≡ crowded_words }
{
    b": by its event an 8193rd datagram would be in flight; pass, deliver and rounds let datagrams arrive"
}
