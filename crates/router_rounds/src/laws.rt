//! Laws of rounds over several sessions.
ghost use Rattle.router_rounds.specs.RouteRounds.{MoveIsRounds};
ghost use Rattle.router_rounds.specs.Passing.{AllDyingAreThere, DeadAreGone, WaitIsRounds};
ghost use Rattle.router_rounds.specs.RoundLaws.{ClearedIsRoomy, ClocksDoNotMatter, RoundsAreMarked, RoundsAreSaid, RoundsAreTold, RoundsAreTorn};

/// Toward a hop goes the same, whatever the clock at which a node's tables are seen.
pub fn clocks_do_not_matter()
    ensures { ClocksDoNotMatter }
{}

/// The ResvTears of the sessions' lanes, of what was said there, are those of the rule.
pub fn rounds_are_torn()
    ensures { RoundsAreTorn }
{}

/// Once the lanes from which no path comes any more are cleared, nothing is kept of any such lane.
pub fn cleared_is_roomy()
    ensures { ClearedIsRoomy }
{}

/// The Resvs of the sessions' lanes, by what was said there, are those of the rule.
pub fn rounds_are_told()
    ensures { RoundsAreTold }
{}

/// The marks that are used session by session are those that the rule takes away.
pub fn rounds_are_marked()
    ensures { RoundsAreMarked }
{}

/// Once the lanes of the sessions are told, what was said is what goes toward each hop, also without the marks that were used.
pub fn rounds_are_said()
    ensures { RoundsAreSaid }
{}

/// A wait is rounds over the sessions of which something dies or that come due: these are its facts, and its sends in order.
pub fn wait_is_rounds()
    ensures { WaitIsRounds }
{}

/// The senders whose paths die were offered, and none of these paths is there afterwards.
pub fn dead_are_gone()
    ensures { DeadAreGone }
{}

/// The sessions that are touched in a wait are all of which something dies.
pub fn all_dying_are_there()
    ensures { AllDyingAreThere }
{}

/// Other routes than before are rounds over all sessions that have a countdown: these are its facts, and its sends in order.
pub fn move_is_rounds()
    ensures { MoveIsRounds }
{}
