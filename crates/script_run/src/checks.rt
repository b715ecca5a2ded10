//! What checks the lines of a script.
ghost use Rattle.std.specs.Prelude.{◌≡◌, ◌≤◌, length, IfOk};
ghost use Rattle.stale_state.specs.AtNodes.{list_of};
ghost use Rattle.stale_state.specs.Fit.{AreFitAll};
ghost use Rattle.script_grammar.specs.Draft.{plan_of};
ghost use Rattle.script_run.specs.Checking.{Feeds, IsStartOf};

use network_model::Event;
use rsvp_base::{EndName, NoMemory};
use script_grammar::{LinesBefore, Stop};
use stale_state::LeftOver;
use tree_routing::Routing;

/// What the lines before all events declare.
#[derive(Drop)]
pub struct Start {
    /// A quarter of the refresh period, in milliseconds, from 1 to 15,000.
    pub quarter: u32,
    /// The seed of the random words that spread the refreshes.
    pub seed: u64,
    pub routing: Routing,
    /// The names of the ends, by number.
    pub names: Vec<EndName>,
}

/// What checks the lines of a script, one after another.
pub trait Checks: LinesBefore {
    /// Takes a line, and gives its event if it is one of part 3. `Bad`: exactly where the line cannot follow those before,
    /// which stay the lines so far. `NoMemory`, only where the line asks for memory to be read or added: it ran out, and nothing more
    /// may be fed. It is never `Crowded`.
    fn feed(&mut self, line: &[u8]) -> Result<Option<Event>, Stop>
        requires { length line.now ≤ 2048 }
        ensures { Feeds (Self.lines self.old) line.now result (Self.lines self.new) };

    /// The network that the lines declare. `NoMemory`: there was no room for it.
    fn start(&self) -> Result<Start, NoMemory>
        ensures { IfOk result (λ s. IsStartOf s (plan_of (Self.lines self.now))) };

    /// What is left over at its nodes, in the order of the lines. Each lives no longer than a fact that was just refreshed at its
    /// node, and has the shape of one.
    fn left(&self) -> &[LeftOver]
        ensures list { list_of result.now ≡ (Self.lines self.now).stale }
        ensures fit { AreFitAll (plan_of (Self.lines self.now)).quarter (Self.lines self.now).net result.now };
}
