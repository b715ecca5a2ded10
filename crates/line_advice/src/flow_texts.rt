//! What is wrong with a flow, in words.
ghost use Rattle.std.specs.Prelude.{◌≡◌, ◌≤◌, ◌<◌, ◌++◌, length, OnErr, OnOk, vec_capacity};
ghost use Rattle.line_advice.specs.FlowTexts.{flow_fault_text, large_text, letter_text, nearest_head, nearest_text};

use crate::flow_faults::{FlowFault, FlowRate};
use rsvp_base::NoMemory;
use value_texts::{put, put_number};

/// Appends which number of a flow is out of range, and what is wanted of it. `NoMemory`: the room that the text had did not suffice,
/// and there was no memory for more.
pub fn put_flow_fault(out: &mut Vec<u8>, fault: FlowFault) -> Result<(), NoMemory>
    ensures text { OnOk result (out.new.items ≡ out.old.items ++ flow_fault_text fault) }
    ensures full { OnErr result (vec_capacity out.old < length (out.old.items ++ flow_fault_text fault)) }
    ensures kept { vec_capacity out.old ≤ vec_capacity out.new }
{
    match fault {
        FlowFault::Zero { rate } => {
            put(out, letter_text(rate))?;
            put(out, b" is at least 1")
        }
        FlowFault::Large { rate } => {
            put(out, letter_text(rate))?;
            put(out, large_text())
        }
        FlowFault::NoRate { rate, below, above } => {
            put(out, letter_text(rate))?;
            put_nearest(out, below, above)
        }
        FlowFault::NoUnit => put(out, b"m is at least 1"),
        FlowFault::LargeUnit => put(out, b"m is at most M"),
        FlowFault::LargePacket => put(out, b"M is at most 4294967295"),
    }
}

// Appends the nearest rates of a number that is none.
#[tactic(auto, unfolding(crate::specs::FlowTexts::nearest_text))]
fn put_nearest(out: &mut Vec<u8>, below: u64, above: u64) -> Result<(), NoMemory>
    ensures text { OnOk result (out.new.items ≡ out.old.items ++ nearest_text below above) }
    ensures full { OnErr result (vec_capacity out.old < length (out.old.items ++ nearest_text below above)) }
    ensures kept { vec_capacity out.old ≤ vec_capacity out.new }
{
    put(out, nearest_head())?;
    put_number(out, below)?;
    put(out, b" and ")?;
    put_number(out, above)
}

fn letter_text(rate: FlowRate) -> &'static [u8]
    ensures { result.now ≡ letter_text rate }
{
    match rate {
        FlowRate::R => b"r",
        FlowRate::B => b"b",
        FlowRate::P => b"p",
    }
}

#[tactic(auto, unfolding(crate::specs::FlowTexts::large_text))]
fn large_text() -> &'static [u8]
    ensures { result.now ≡ large_text }
{
    b" is at most 70368739983360, the largest rate"
}

#[tactic(auto, unfolding(crate::specs::FlowTexts::nearest_head))]
fn nearest_head() -> &'static [u8]
    ensures { result.now ≡ nearest_head }
{
    b" is no number of 32-bit floating point: the nearest rates are "
}
