//! The laws.
ghost use Rattle.std.specs.Prelude.{◌≡◌, ◌+◌, ◌*◌, ◌≤◌, ℕ, suc, List, [], length, false};
ghost use Rattle.calm_rounds.specs.Hold.{Visited};
ghost use Rattle.calm_rounds.specs.Machine.{run};
ghost use Rattle.calm_rounds.specs.Rounds.{Rounds, run_rounds};
ghost use Rattle.tree_model.specs.Goals.{DemandsFit};
ghost use Rattle.tree_model.specs.Ranks.{longest};
ghost use Rattle.network_model.specs.Bounds.{IsSettled, IsStart};
ghost use Rattle.network_model.specs.Events.{rounds};
ghost use Rattle.network_model.specs.Locals.{locals_of};
ghost use Rattle.network_model.specs.Runs.{Plan, first_world, is_crowded_run, steps_of_run};
ghost use Rattle.network_model.specs.Steps.{Step, machine};
ghost use Rattle.network_model.specs.Worlds.{World};
ghost use Rattle.laws_network.specs.Runs.{AreFitSenders, IsFitRun};
ghost use Rattle.network_demand.specs.Overhead.{overhead};
ghost use Rattle.settle_refreshes.specs.Roomy.{with_rounds};
ghost use Rattle.settle_refreshes.specs.Refreshes.{HasOnlyRefreshes};

/// In a network that has settled, rounds of a script put no more in flight than the network's refresh overhead beside what was there: from
/// any start, behind 13 H + 13 calm rounds at whose end nothing is in flight but Paths and Resvs that ask for no confirmation, in each
/// world of n rounds more there is no more than was in flight then and the overhead together. The overhead is a number of the links, the
/// trees, the senders and the wants.
pub fn settled_rounds_are_roomy()
    ensures { (q n : ℕ) (w : World) (rs : List (List Step)) → Rounds (machine q) rs w → IsStart q w → 13 * longest w.net + 13 ≤ length rs → HasOnlyRefreshes (run_rounds (machine q) rs w)
        → Visited (machine q) (λ v. length v.flight ≤ length (run_rounds (machine q) rs w).flight + overhead (run_rounds (machine q) rs w).net (locals_of (run_rounds (machine q) rs w)))
        (rounds q n (run_rounds (machine q) rs w)) (run_rounds (machine q) rs w) }
{}

/// And behind each of these rounds nothing is in flight, so that the network is one of which the laws on passes speak
/// (`settle_passes::a_settled_network_serves_a_receiver`, `settle_releases::a_settled_network_releases`).
pub fn settled_rounds_leave_nothing_in_flight()
    ensures { (q n : ℕ) (w : World) (rs : List (List Step)) → Rounds (machine q) rs w → IsStart q w → 13 * longest w.net + 13 ≤ length rs → HasOnlyRefreshes (run_rounds (machine q) rs w)
        → (run (machine q) (rounds q (suc n) (run_rounds (machine q) rs w)) (run_rounds (machine q) rs w)).flight ≡ [] }
{}

/// So a run that is not crowded up to a settled moment is never crowded by rounds that follow, however many: where a fit script that lets
/// few senders send ends in 13 H + 13 calm rounds, its demands fit when these begin, nothing is in flight at its end but Paths and Resvs
/// that ask for no confirmation, and these and the refresh overhead together are 8,192 at most.
pub fn a_settled_run_never_crowds()
    ensures { (p : Plan) → IsFitRun p → AreFitSenders p → is_crowded_run p ≡ false → (is : IsSettled p.quarter (first_world p) (steps_of_run p))
        → DemandsFit (run (machine p.quarter) is.before (first_world p)).net (locals_of (run (machine p.quarter) is.before (first_world p)))
        → HasOnlyRefreshes (run (machine p.quarter) (steps_of_run p) (first_world p))
        → length (run (machine p.quarter) (steps_of_run p) (first_world p)).flight
        + overhead (run (machine p.quarter) (steps_of_run p) (first_world p)).net (locals_of (run (machine p.quarter) (steps_of_run p) (first_world p))) ≤ 8192
        → (n : ℕ) → is_crowded_run (with_rounds n p) ≡ false }
{}
