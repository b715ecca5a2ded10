//! The rules of script lines, by the kind of the line.
ghost use Rattle.std.specs.Prelude.{◌≡◌, Err, IfErr, IfOk, OnOk};
ghost use Rattle.script_grammar.specs.Adds.{Adds};
ghost use Rattle.script_grammar.specs.Asking.{AsksMemory};
ghost use Rattle.script_grammar.specs.Rules.{KeepsAll, Keeps};
ghost use Rattle.script_rules.specs.Said.{draft_of};
ghost use Rattle.script_checker.specs.Forms.{Formed};
ghost use Rattle.script_rules.specs.Refusals.{IsUntouched, Refuses};
ghost use Rattle.script_grammar.specs.GivenEvents.{IsGiven};

use network_model::Event;
use script_grammar::{ScriptLine, Stop};
use script_rules::ScriptState;

/// Adds what a line says, and gives its event if it is one of part 3. `Bad`: the line breaks a rule, this is the fault of the
/// first that it breaks, and the lines so far stay as they were. `NoMemory`, only where the line asks for memory: it ran out.
pub fn add(state: &mut ScriptState, line: ScriptLine) -> Result<Option<Event>, Stop>
    requires { Formed line }
    ensures ok { OnOk result (KeepsAll (Keeps (draft_of state.old) line) × Adds (draft_of state.old) line (draft_of state.new)) }
    ensures given { IfOk result (λ e. IsGiven (draft_of state.old).events e (draft_of state.new).events) }
    ensures refused { IfErr result (Refuses (draft_of state.old) line) }
    ensures asked { result ≡ Err Stop.NoMemory → AsksMemory (draft_of state.old) line }
    ensures same { IfErr result (IsUntouched (draft_of state.old) (draft_of state.new)) }
{
    match line {
        ScriptLine::Skipped => Ok(None),
        ScriptLine::Period(ms) => {
            script_rules::add_period(state, ms)?;
            Ok(None)
        }
        ScriptLine::Seed(seed) => {
            script_rules::add_seed(state, seed)?;
            Ok(None)
        }
        ScriptLine::Node(name) => {
            script_rules::add_node(state, name)?;
            Ok(None)
        }
        ScriptLine::Wait(ms) => Ok(Some(script_rules::add_wait(state, ms)?)),
        ScriptLine::Pass(times) => Ok(Some(script_rules::add_pass(state, times)?)),
        ScriptLine::Rounds(times) => Ok(Some(script_rules::add_rounds(state, times)?)),
        ScriptLine::Deliver(place) => Ok(Some(script_rules::add_deliver(state, place)?)),
        ScriptLine::Lose(place) => Ok(Some(script_rules::add_lose(state, place)?)),
        ScriptLine::Copy(place) => Ok(Some(script_rules::add_again(state, place)?)),
        ScriptLine::Clear(node) => Ok(Some(script_rules::add_clear(state, node)?)),
        ScriptLine::Trace(on) => Ok(Some(script_rules::add_trace(state, on)?)),
        ScriptLine::Report => Ok(Some(script_rules::add_report(state)?)),
        ScriptLine::Flags => Ok(Some(script_rules::add_flags(state)?)),
        ScriptLine::Adverts => Ok(Some(script_rules::add_adverts(state)?)),
        ScriptLine::End(line) => {
            script_rules::add_end(state, line)?;
            Ok(None)
        }
        ScriptLine::Latency(line) => {
            script_rules::add_latency(state, line)?;
            Ok(None)
        }
        ScriptLine::Link(names) => {
            script_rules::add_link(state, names)?;
            Ok(None)
        }
        ScriptLine::Hop(line) => {
            script_rules::add_hop(state, line)?;
            Ok(None)
        }
        ScriptLine::StalePath(line) => {
            script_rules::add_path(state, line)?;
            Ok(None)
        }
        ScriptLine::StaleResv(line) => {
            script_rules::add_resv(state, line)?;
            Ok(None)
        }
        ScriptLine::StaleHopWall(line) => {
            script_rules::add_hop_wall(state, line)?;
            Ok(None)
        }
        ScriptLine::StaleSenderWall(line) => {
            script_rules::add_sender_wall(state, line)?;
            Ok(None)
        }
        ScriptLine::Send(line) => Ok(Some(script_rules::add_send(state, line)?)),
        ScriptLine::Advert(line) => Ok(Some(script_rules::add_advert(state, line)?)),
        ScriptLine::Drop(line) => Ok(Some(script_rules::add_drop(state, line)?)),
        ScriptLine::Want(line) => Ok(Some(script_rules::add_want(state, line)?)),
        ScriptLine::Quit(line) => Ok(Some(script_rules::add_quit(state, line)?)),
        ScriptLine::ReportEnd(end) => Ok(Some(script_rules::add_report_end(state, end)?)),
        ScriptLine::Inject(line) => Ok(Some(script_rules::add_inject(state, line)?)),
        ScriptLine::Reroute(line) => Ok(Some(script_rules::add_reroute(state, line)?)),
    }
}
