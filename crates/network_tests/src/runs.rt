//! The run of a script, with what stands in flight behind its last line.
use byte_streams::{MemorySink, MemorySource};
use live_router::LiveRouter;
use message_show::put_reading;
use script_checker::Checker;
use script_run::{Unwatched, run_script};
use std::alloc::Global;
use std::test::*;

/// A row: what it shows, the first lines of a script, those behind them, and what is wanted.
pub type Row = (&'static str, &'static str, &'static str, &'static str);

/// Runs the script of each row, and fails at the first that comes to another text.
pub fn run_rows(alloc: Global, rows: &[Row]) -> Result<(), Fail> {
    for (name, network, events, wanted) in rows {
        let text = outcome(alloc, network, events)?;
        if text.as_str() != *wanted {
            return Err(Fail::new(format_args!("{name}: {text}")));
        }
    }
    Ok(())
}

// What the script of these lines writes, and below it what each datagram says that is in flight behind its last line, in the
// order of sending.
fn outcome(alloc: Global, network: &str, events: &str) -> Result<String, Fail> {
    let mut script = network.as_bytes().to_vec(alloc)?;
    script.extend_from_slice(events.as_bytes())?;
    let mut source = MemorySource::new(script, Vec::new(alloc), 4096);
    let mut sink = MemorySink::open(alloc, 4096, Vec::new(alloc), Vec::new(alloc))?;
    let mut last = None;
    let mut advice = Vec::new(alloc);
    let _ = run_script::<Checker, LiveRouter, MemorySource, MemorySink, Unwatched>(
        alloc,
        Checker::open(alloc)?,
        &mut source,
        &mut sink,
        &mut Unwatched,
        &mut last,
        &mut advice,
    );
    // A bad line is told in the place of the text.
    let Some(world) = last else {
        return Ok(String::from_utf8(advice)?);
    };
    let mut text = sink.bytes().to_vec(alloc)?;
    for k in 0..world.in_flight() {
        if let Some(bytes) = world.packet(k) {
            put_reading(&mut text, bytes)?;
        }
    }
    Ok(String::from_utf8(text)?)
}
