//! The laws.
ghost use Rattle.std.specs.Prelude.{◌≡◌, ℕ, false};
ghost use Rattle.calm_rounds.specs.Hold.{Visited};
ghost use Rattle.network_model.specs.Events.{rounds};
ghost use Rattle.network_model.specs.Runs.{is_crowded_run};
ghost use Rattle.network_model.specs.Steps.{machine};
ghost use Rattle.grown_network.specs.Grown.{grown_plan};
ghost use Rattle.settle_openings.specs.Opening.{IsOpening, IsUntouched, NothingIsLost};
ghost use Rattle.laws_grown.specs.Grown.{behind_calls};

/// The network of each seed is untouched behind the calls of its hosts, before anything is delivered.
pub fn a_seed_is_untouched()
    ensures { (seed : ℕ) → IsUntouched 7500 (behind_calls seed) }
{}

/// So it opens, and in each world of its rounds nothing is in flight but Paths, and Resvs that ask for no confirmation; and by no step of them is
/// anything lost or refused.
pub fn a_seed_opens()
    ensures { (seed n : ℕ) → Visited (machine 7500) (IsOpening 7500) (rounds 7500 n (behind_calls seed)) (behind_calls seed)
        × NothingIsLost 7500 (rounds 7500 n (behind_calls seed)) (behind_calls seed) }
{}

/// And no seed crowds: no step of the run of a seed leads to a world with more than 8,192 datagrams in flight.
pub fn seeds_never_crowd()
    ensures { (seed : ℕ) → is_crowded_run (grown_plan seed) ≡ false }
{}
