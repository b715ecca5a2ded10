//! What the lines of a script ask of their network.
ghost use Rattle.std.specs.Prelude.{◌≡◌, IfOk};
ghost use Rattle.network_demand.specs.Asked.{locals_of};
ghost use Rattle.script_grammar.specs.Draft.{routing};

use network_demand::Locals;
use rsvp_base::{EndName, NoMemory};
use script_run::Checks;
use tree_routing::Routing;

/// What checks the lines of a script and keeps what they ask of their network.
pub trait Asks: Checks {
    /// The names of the ends, by number.
    fn names(&self) -> &[EndName]
        ensures { result.now ≡ (Self.lines self.now).names };

    /// The routing in force behind the lines. `NoMemory`: there was no room for it.
    fn routing(&self) -> Result<Routing, NoMemory>
        ensures { IfOk result (λ r. r ≡ routing (Self.lines self.now)) };

    /// Who sends and who wants what behind the lines. `NoMemory`: there was no room for it.
    fn locals(&self) -> Result<Locals, NoMemory>
        ensures { IfOk result (λ l. locals_of l ≡ (Self.lines self.now).locals) };
}
