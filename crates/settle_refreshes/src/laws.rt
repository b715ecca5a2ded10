//! The laws.
ghost use Rattle.std.specs.Prelude.{◌+◌, ◌*◌, ◌≤◌, ℕ, List, length};
ghost use Rattle.rsvp_base.specs.Members.{In};
ghost use Rattle.calm_rounds.specs.Hold.{Hold};
ghost use Rattle.calm_rounds.specs.Machine.{run};
ghost use Rattle.calm_rounds.specs.Rounds.{Rounds, run_rounds};
ghost use Rattle.tree_model.specs.Goals.{DemandsFit};
ghost use Rattle.tree_model.specs.Ranks.{longest};
ghost use Rattle.network_model.specs.Bounds.{EndsInCalm, IsStart};
ghost use Rattle.network_model.specs.Events.{Event};
ghost use Rattle.network_model.specs.Locals.{locals_of};
ghost use Rattle.network_model.specs.Runs.{Plan, first_world, steps_of_run};
ghost use Rattle.network_model.specs.Steps.{Step, machine};
ghost use Rattle.network_model.specs.Worlds.{World};
ghost use Rattle.laws_network.specs.Runs.{AreFitSenders, IsFitRun};
ghost use Rattle.settle_refreshes.specs.Plain.{InjectsNothing, IsPlain, NoErrorIsForAll, StaysPlain, to_plain_refreshes};
ghost use Rattle.settle_refreshes.specs.Refreshes.{HasNothingElse, HasOnlyRefreshes, NothingGoesRound, to_refreshes};

/// From any start, in each world 13 H + 14 calm rounds on, nothing is in flight but Paths, Resvs that ask for no confirmation, ResvConfs,
/// and ResvErrs with a fixed or a shared filter that name nobody. Tears, PathErrs, ResvErrs that name senders, requests for a
/// confirmation and bytes that spell no message are gone, whatever was in flight.
pub fn what_is_left_in_flight()
    ensures { (q : ℕ) (w : World) (rs : List (List Step)) → Rounds (machine q) rs w → IsStart q w
        → Hold (machine q) (13 * longest w.net + 14) rs w HasNothingElse }
{}

/// And 14 H + 15 calm rounds on only refreshes are in flight, where at the start nothing goes round: of a session with several senders no
/// ResvErr with a fixed or a shared filter that names nobody is in flight, nor a bad Resv that is answered by one; and if a session has
/// several senders, nobody waits for a confirmation.
pub fn only_refreshes_are_in_flight()
    ensures { (q : ℕ) (w : World) (rs : List (List Step)) → Rounds (machine q) rs w → IsStart q w → NothingGoesRound w
        → Hold (machine q) (14 * longest w.net + 15) rs w HasOnlyRefreshes }
{}

/// So it is at the end of so many calm rounds, or of more: the premise on what is in flight of the laws on the refresh overhead.
pub fn rounds_end_in_refreshes()
    ensures { (q : ℕ) (w : World) (rs : List (List Step)) → Rounds (machine q) rs w → IsStart q w → NothingGoesRound w → 14 * longest w.net + 15 ≤ length rs
        → HasOnlyRefreshes (run_rounds (machine q) rs w) }
{}

/// And at the end of the run of a fit script that lets few senders send and ends in so many calm rounds, where its demands fit and nothing
/// goes round when these begin: the premise on what is in flight of `settle_refreshes::a_settled_run_never_crowds`.
pub fn a_run_ends_in_refreshes()
    ensures { (p : Plan) → IsFitRun p → AreFitSenders p → (is : EndsInCalm to_refreshes p.quarter (first_world p) (steps_of_run p))
        → DemandsFit (run (machine p.quarter) is.before (first_world p)).net (locals_of (run (machine p.quarter) is.before (first_world p)))
        → NothingGoesRound (run (machine p.quarter) is.before (first_world p)) → HasOnlyRefreshes (run (machine p.quarter) (steps_of_run p) (first_world p)) }
{}

/// In the run of a fit script that injects nothing no ResvErr with a fixed or a shared filter that names nobody is ever in flight, nor a
/// Resv that is answered by one: both come from what is injected alone.
pub fn no_error_is_for_all()
    ensures { (p : Plan) → IsFitRun p → ((e : Event) → In e p.events → InjectsNothing e) → NoErrorIsForAll p }
{}

/// And where nobody asks for a confirmation either, nobody ever waits for one, and in no world of the run is anything in flight that may go
/// round: no ResvConf, and no such ResvErr.
pub fn a_plain_run_stays_plain()
    ensures { (p : Plan) → IsFitRun p → IsPlain p → StaysPlain p }
{}

/// So at its end, if it lets few senders send and ends in 13 H + 14 calm rounds, and its demands fit when these begin, only refreshes are in
/// flight: what is asked of what goes round is read off the script.
pub fn a_plain_run_ends_in_refreshes()
    ensures { (p : Plan) → IsFitRun p → AreFitSenders p → IsPlain p → (is : EndsInCalm to_plain_refreshes p.quarter (first_world p) (steps_of_run p))
        → DemandsFit (run (machine p.quarter) is.before (first_world p)).net (locals_of (run (machine p.quarter) is.before (first_world p)))
        → HasOnlyRefreshes (run (machine p.quarter) (steps_of_run p) (first_world p)) }
{}
