//! The rules of lines of part 3 that ask nothing of a host.
ghost use Rattle.std.specs.Prelude.{◌≡◌, ◌≢◌, ◌↔◌, ◌≤◌, Err, IfErr, IfOk, IfSome, IsSome, OnOk, length};
ghost use Rattle.script_rules.specs.Said.{draft_of};
ghost use Rattle.script_rules.specs.Refusals.{IsUntouched, Refuses};
ghost use Rattle.script_rules.specs.Asking.{AsksMemory};
ghost use Rattle.script_grammar.specs.GivenEvents.{IsAdded};
ghost use Rattle.script_grammar.specs.Adds.{Adds};
ghost use Rattle.script_grammar.specs.Rules.{Keeps, KeepsAll};
ghost use Rattle.script_grammar.specs.Values.{IsFrom1To};
ghost use Rattle.script_grammar.specs.declared.line.ScriptLine.TheVariants as kind;

use crate::keeping::{has_room_for_adverts, has_room_for_report, keep, keep_adverts, keep_report};
use crate::state::ScriptState;
use network_model::Event;
use rsvp_base::EndName;
use script_grammar::{Fault, InjectLine, Stop};

const MOST_WAIT: u32 = 3_600_000;

const MOST_PASSES: u32 = 1000;

const MOST_ROUNDS: u32 = 10_000;

const MOST_PLACES: u32 = 8192;

// A number from 1 on, where it is not above the most.
fn from_1_to(most: u32, number: u128) -> Option<u32>
    ensures some { IsSome result ↔ IsFrom1To most number }
    ensures value { IfSome result (λ n. n ≡ number) }
{
    if number == 0 || number > u128::from(most) {
        return None;
    }
    Some(number as u32)
}

/// Adds the event of `wait`. It takes no memory, as each call of this module but `add_inject`, so that `NoMemory` is never its
/// answer.
pub fn add_wait(state: &mut ScriptState, ms: u128) -> Result<Event, Stop>
    ensures ok { OnOk result (KeepsAll (Keeps (draft_of state.old) (kind.Wait ms)) × Adds (draft_of state.old) (kind.Wait ms) (draft_of state.new)) }
    ensures event { IfOk result (λ e. IsAdded (draft_of state.old).events e (draft_of state.new).events) }
    ensures refused { IfErr result (Refuses (draft_of state.old) (kind.Wait ms)) }
    ensures asked { result ≢ Err Stop.NoMemory }
    ensures same { IfErr result (IsUntouched (draft_of state.old) (draft_of state.new)) }
{
    let Some(ms) = from_1_to(MOST_WAIT, ms) else {
        return Err(Stop::Bad(Fault::Range));
    };
    Ok(keep(state, Event::Wait { ms }))
}

/// Adds the event of `pass`.
pub fn add_pass(state: &mut ScriptState, times: u128) -> Result<Event, Stop>
    ensures ok { OnOk result (KeepsAll (Keeps (draft_of state.old) (kind.Pass times)) × Adds (draft_of state.old) (kind.Pass times) (draft_of state.new)) }
    ensures event { IfOk result (λ e. IsAdded (draft_of state.old).events e (draft_of state.new).events) }
    ensures refused { IfErr result (Refuses (draft_of state.old) (kind.Pass times)) }
    ensures asked { result ≢ Err Stop.NoMemory }
    ensures same { IfErr result (IsUntouched (draft_of state.old) (draft_of state.new)) }
{
    let Some(times) = from_1_to(MOST_PASSES, times) else {
        return Err(Stop::Bad(Fault::Range));
    };
    Ok(keep(state, Event::Pass { times }))
}

/// Adds the event of `rounds`.
pub fn add_rounds(state: &mut ScriptState, times: u128) -> Result<Event, Stop>
    ensures ok { OnOk result (KeepsAll (Keeps (draft_of state.old) (kind.Rounds times)) × Adds (draft_of state.old) (kind.Rounds times) (draft_of state.new)) }
    ensures event { IfOk result (λ e. IsAdded (draft_of state.old).events e (draft_of state.new).events) }
    ensures refused { IfErr result (Refuses (draft_of state.old) (kind.Rounds times)) }
    ensures asked { result ≢ Err Stop.NoMemory }
    ensures same { IfErr result (IsUntouched (draft_of state.old) (draft_of state.new)) }
{
    let Some(times) = from_1_to(MOST_ROUNDS, times) else {
        return Err(Stop::Bad(Fault::Range));
    };
    Ok(keep(state, Event::Rounds { times }))
}

/// Adds the event of `deliver`.
pub fn add_deliver(state: &mut ScriptState, place: u128) -> Result<Event, Stop>
    ensures ok { OnOk result (KeepsAll (Keeps (draft_of state.old) (kind.Deliver place)) × Adds (draft_of state.old) (kind.Deliver place) (draft_of state.new)) }
    ensures event { IfOk result (λ e. IsAdded (draft_of state.old).events e (draft_of state.new).events) }
    ensures refused { IfErr result (Refuses (draft_of state.old) (kind.Deliver place)) }
    ensures asked { result ≢ Err Stop.NoMemory }
    ensures same { IfErr result (IsUntouched (draft_of state.old) (draft_of state.new)) }
{
    let Some(place) = from_1_to(MOST_PLACES, place) else {
        return Err(Stop::Bad(Fault::Range));
    };
    Ok(keep(state, Event::Deliver { place }))
}

/// Adds the event of `lose`.
pub fn add_lose(state: &mut ScriptState, place: u128) -> Result<Event, Stop>
    ensures ok { OnOk result (KeepsAll (Keeps (draft_of state.old) (kind.Lose place)) × Adds (draft_of state.old) (kind.Lose place) (draft_of state.new)) }
    ensures event { IfOk result (λ e. IsAdded (draft_of state.old).events e (draft_of state.new).events) }
    ensures refused { IfErr result (Refuses (draft_of state.old) (kind.Lose place)) }
    ensures asked { result ≢ Err Stop.NoMemory }
    ensures same { IfErr result (IsUntouched (draft_of state.old) (draft_of state.new)) }
{
    let Some(place) = from_1_to(MOST_PLACES, place) else {
        return Err(Stop::Bad(Fault::Range));
    };
    Ok(keep(state, Event::Lose { place }))
}

/// Adds the event of `copy`.
pub fn add_again(state: &mut ScriptState, place: u128) -> Result<Event, Stop>
    ensures ok { OnOk result (KeepsAll (Keeps (draft_of state.old) (kind.Copy place)) × Adds (draft_of state.old) (kind.Copy place) (draft_of state.new)) }
    ensures event { IfOk result (λ e. IsAdded (draft_of state.old).events e (draft_of state.new).events) }
    ensures refused { IfErr result (Refuses (draft_of state.old) (kind.Copy place)) }
    ensures asked { result ≢ Err Stop.NoMemory }
    ensures same { IfErr result (IsUntouched (draft_of state.old) (draft_of state.new)) }
{
    let Some(place) = from_1_to(MOST_PLACES, place) else {
        return Err(Stop::Bad(Fault::Range));
    };
    Ok(keep(state, Event::Again { place }))
}

/// Adds the event of `clear`.
pub fn add_clear(state: &mut ScriptState, node: EndName) -> Result<Event, Stop>
    ensures ok { OnOk result (KeepsAll (Keeps (draft_of state.old) (kind.Clear node)) × Adds (draft_of state.old) (kind.Clear node) (draft_of state.new)) }
    ensures event { IfOk result (λ e. IsAdded (draft_of state.old).events e (draft_of state.new).events) }
    ensures refused { IfErr result (Refuses (draft_of state.old) (kind.Clear node)) }
    ensures asked { result ≢ Err Stop.NoMemory }
    ensures same { IfErr result (IsUntouched (draft_of state.old) (draft_of state.new)) }
{
    let Some(node) = state.nodes.find(node.bytes()) else {
        return Err(Stop::Bad(Fault::Name));
    };
    Ok(keep(state, Event::Clear { node: node as u16 }))
}

/// Adds the event of `trace`.
pub fn add_trace(state: &mut ScriptState, on: bool) -> Result<Event, Stop>
    ensures ok { OnOk result (KeepsAll (Keeps (draft_of state.old) (kind.Trace on)) × Adds (draft_of state.old) (kind.Trace on) (draft_of state.new)) }
    ensures event { IfOk result (λ e. IsAdded (draft_of state.old).events e (draft_of state.new).events) }
    ensures refused { IfErr result (Refuses (draft_of state.old) (kind.Trace on)) }
    ensures asked { result ≢ Err Stop.NoMemory }
    ensures same { IfErr result (IsUntouched (draft_of state.old) (draft_of state.new)) }
{
    Ok(keep(state, Event::Trace { on }))
}

/// Adds the event of `report`.
pub fn add_report(state: &mut ScriptState) -> Result<Event, Stop>
    ensures ok { OnOk result (KeepsAll (Keeps (draft_of state.old) (kind.Report)) × Adds (draft_of state.old) (kind.Report) (draft_of state.new)) }
    ensures event { IfOk result (λ e. IsAdded (draft_of state.old).events e (draft_of state.new).events) }
    ensures refused { IfErr result (Refuses (draft_of state.old) (kind.Report)) }
    ensures asked { result ≢ Err Stop.NoMemory }
    ensures same { IfErr result (IsUntouched (draft_of state.old) (draft_of state.new)) }
{
    if !has_room_for_report(state) {
        return Err(Stop::Bad(Fault::Limit));
    }
    Ok(keep_report(state, Event::Report { end: None }))
}

/// Adds the event of `report END`.
pub fn add_report_end(state: &mut ScriptState, end: EndName) -> Result<Event, Stop>
    ensures ok { OnOk result (KeepsAll (Keeps (draft_of state.old) (kind.ReportEnd end)) × Adds (draft_of state.old) (kind.ReportEnd end) (draft_of state.new)) }
    ensures event { IfOk result (λ e. IsAdded (draft_of state.old).events e (draft_of state.new).events) }
    ensures refused { IfErr result (Refuses (draft_of state.old) (kind.ReportEnd end)) }
    ensures asked { result ≢ Err Stop.NoMemory }
    ensures same { IfErr result (IsUntouched (draft_of state.old) (draft_of state.new)) }
{
    let Some(end) = state.names.find(end.bytes()) else {
        return Err(Stop::Bad(Fault::Name));
    };
    if !has_room_for_report(state) {
        return Err(Stop::Bad(Fault::Limit));
    }
    Ok(keep_report(
        state,
        Event::Report {
            end: Some(end as u16),
        },
    ))
}

/// Adds the event of `flags`.
pub fn add_flags(state: &mut ScriptState) -> Result<Event, Stop>
    ensures ok { OnOk result (KeepsAll (Keeps (draft_of state.old) (kind.Flags)) × Adds (draft_of state.old) (kind.Flags) (draft_of state.new)) }
    ensures event { IfOk result (λ e. IsAdded (draft_of state.old).events e (draft_of state.new).events) }
    ensures refused { IfErr result (Refuses (draft_of state.old) (kind.Flags)) }
    ensures asked { result ≢ Err Stop.NoMemory }
    ensures same { IfErr result (IsUntouched (draft_of state.old) (draft_of state.new)) }
{
    if !has_room_for_report(state) {
        return Err(Stop::Bad(Fault::Limit));
    }
    Ok(keep_report(state, Event::Flags))
}

/// Adds the event of `adverts`.
pub fn add_adverts(state: &mut ScriptState) -> Result<Event, Stop>
    ensures ok { OnOk result (KeepsAll (Keeps (draft_of state.old) (kind.Adverts)) × Adds (draft_of state.old) (kind.Adverts) (draft_of state.new)) }
    ensures event { IfOk result (λ e. IsAdded (draft_of state.old).events e (draft_of state.new).events) }
    ensures refused { IfErr result (Refuses (draft_of state.old) (kind.Adverts)) }
    ensures asked { result ≢ Err Stop.NoMemory }
    ensures same { IfErr result (IsUntouched (draft_of state.old) (draft_of state.new)) }
{
    if !has_room_for_adverts(state) {
        return Err(Stop::Bad(Fault::Limit));
    }
    Ok(keep_adverts(state))
}

/// Adds the event of `inject`. `NoMemory`: the line keeps all rules, and there was no memory for its bytes.
pub fn add_inject(state: &mut ScriptState, line: InjectLine) -> Result<Event, Stop>
    requires { length line.bytes ≤ 4096 }
    ensures ok { OnOk result (KeepsAll (Keeps (draft_of state.old) (kind.Inject line)) × Adds (draft_of state.old) (kind.Inject line) (draft_of state.new)) }
    ensures event { IfOk result (λ e. IsAdded (draft_of state.old).events e (draft_of state.new).events) }
    ensures refused { IfErr result (Refuses (draft_of state.old) (kind.Inject line)) }
    ensures asked { result ≡ Err Stop.NoMemory → AsksMemory (draft_of state.old) (kind.Inject line) }
    ensures same { IfErr result (IsUntouched (draft_of state.old) (draft_of state.new)) }
{
    let Some(dst) = line.dst.addr() else {
        return Err(Stop::Bad(Fault::Range));
    };
    let Some(end) = state.names.find(line.end.bytes()) else {
        return Err(Stop::Bad(Fault::Name));
    };
    let bytes = line.bytes.as_slice().to_vec(state.alloc)?;
    Ok(keep(
        state,
        Event::Inject {
            end: end as u16,
            dst,
            bytes,
        },
    ))
}
