//! Laws of the state of a node.
ghost use Rattle.router_state.specs.StateLaws.{NoFactsAreKept, RoutesAreFound, FactsAreSettled, SameSettles, TimePasses, NamesAreForgotten};

/// A node without facts has what holds of every node between two inputs.
pub fn no_facts_are_kept()
    ensures { NoFactsAreKept }
{}

/// The first route of a group and source is the one that their order finds.
pub fn routes_are_found()
    ensures { RoutesAreFound }
{}

/// What the rule leaves is what the input does, with names forgotten and countdowns settled.
pub fn facts_are_settled()
    ensures { FactsAreSettled }
{}

/// Where nothing changed, nothing is forgotten and no countdown moves.
pub fn same_is_settled()
    ensures { SameSettles }
{}

/// Tables that have lost some milliseconds are the facts after a wait, before names are forgotten.
pub fn time_passes()
    ensures { TimePasses }
{}

/// Names that leave a table one after another are what the rule forgets at once.
pub fn names_are_forgotten()
    ensures { NamesAreForgotten }
{}
