//! The events of lines, of rounds and of the end of a run.
ghost use Rattle.std.specs.Prelude.{◌≡◌, ◌++◌, OnOk};
ghost use Rattle.script_events.specs.EventTexts.{end_event, line_event, report_event, round_event};

use crate::json::{put_close, put_count, put_event, put_text};
use rsvp_base::NoMemory;

/// Appends that a line was taken.
#[tactic(auto, unfolding(crate::specs::EventTexts::line_event))]
pub fn put_line(out: &mut Vec<u8>, clock: u64, number: u32, line: &[u8]) -> Result<(), NoMemory>
    ensures { OnOk result (out.new.items ≡ out.old.items ++ line_event clock number line.now) }
{
    put_event(out, b"line", clock)?;
    put_count(out, b"line", u64::from(number))?;
    put_text(out, b"text", line)?;
    put_close(out)
}

/// Appends that so many rounds of all are over.
#[tactic(auto, unfolding(crate::specs::EventTexts::round_event))]
pub fn put_round(out: &mut Vec<u8>, clock: u64, done: u32, all: u32) -> Result<(), NoMemory>
    ensures { OnOk result (out.new.items ≡ out.old.items ++ round_event clock done all) }
{
    put_event(out, b"round", clock)?;
    put_count(out, b"round", u64::from(done))?;
    put_count(out, b"of", u64::from(all))?;
    put_close(out)
}

/// Appends what a line reported.
#[tactic(auto, unfolding(crate::specs::EventTexts::report_event))]
pub fn put_report(out: &mut Vec<u8>, clock: u64, text: &[u8]) -> Result<(), NoMemory>
    ensures { OnOk result (out.new.items ≡ out.old.items ++ report_event clock text.now) }
{
    put_event(out, b"report", clock)?;
    put_text(out, b"text", text)?;
    put_close(out)
}

/// Appends that the run ended with a status, and what is said of it where it is not 0.
#[tactic(auto, unfolding(crate::specs::EventTexts::end_event))]
pub fn put_end(out: &mut Vec<u8>, clock: u64, status: u8, message: &[u8]) -> Result<(), NoMemory>
    ensures { OnOk result (out.new.items ≡ out.old.items ++ end_event clock status message.now) }
{
    put_event(out, b"end", clock)?;
    put_count(out, b"status", u64::from(status))?;
    if status != 0 {
        put_text(out, b"message", message)?;
    }
    put_close(out)
}
