//! Laws of a wait, by the tables of a node.
ghost use Rattle.router_aging.specs.AfterWait.{AWaitIsSettled};
ghost use Rattle.router_aging.specs.Clearing.{ClearIsSettled};
ghost use Rattle.router_aging.specs.Losing.{NamesOfTheDead};
ghost use Rattle.router_aging.specs.Watching.{DyingAreWatched};

/// After a wait it is enough to look at the sessions that have a countdown and of which something died, and at those whose
/// countdowns came due.
pub fn dying_are_watched()
    ensures { DyingAreWatched }
{}

/// The names that go with the senders whose paths died are those that the rule forgets.
pub fn names_of_the_dead_are_lost()
    ensures { NamesOfTheDead }
{}

/// A node without paths, reservations and blockades, whose sessions with local senders have a countdown of a whole period, has
/// the facts of a node that was cleared.
pub fn clear_is_settled()
    ensures { ClearIsSettled }
{}

/// Tables over which time has passed, once names are forgotten and countdowns stopped, have the facts after a wait.
pub fn a_wait_is_settled()
    ensures { AWaitIsSettled }
{}
